// A job set up: the workspace filled, field and outputs zeroed.
ghost use Rattle.std.specs.Prelude.{◌≡◌, ◌≤◌, ◌<◌, length, replicate};
ghost use Rattle.geom.specs.Vec.{f0};
ghost use Rattle.raster.specs.Grid.{Sides};
ghost use Rattle.setup.specs.Made.{setup_of};
ghost use Rattle.setup.specs.Place.{cells_of};
ghost use Rattle.field.specs.Field.{s0};
ghost use Rattle.entry.specs.Regions.{pocket_of, AllHeld};
ghost use Rattle.start.specs.Start.{Started};
ghost use Rattle.start.specs.Steps.{Room};

use super::fill;
use entry::judge::pocket_of;
use entry::params::AdaptiveParams;
use raster::grid::Grid;
use setup::Setup;

pub fn setup_of(p: AdaptiveParams, g: Grid, lens: &[u32], regions: &[u32]) -> Setup
    requires { 0 < length regions.now }
    ensures { result ≡ setup_of g (pocket_of lens.now regions.now) p.tool_diameter p.stock_to_leave p.max_engagement_deg p.keep_tool_down }
{
    let region = pocket_of(lens, regions);
    Setup::new(
        g,
        region,
        p.tool_diameter,
        p.stock_to_leave,
        p.max_engagement_deg,
        p.keep_tool_down,
    )
}

pub fn make_ready(
    s: Setup,
    whole: bool,
    vs: &[f64],
    lens: &[u32],
    regions: &[u32],
    b: &mut [u8],
    u: &mut [u32],
    f: &mut [f32],
    w: &mut [f64],
    rows: &mut [u32],
    triples: &mut [f64],
)
    requires sides { Sides s.grid }
    requires all_held { AllHeld vs.now lens.now regions.now }
    requires region_value { s.region ≡ pocket_of lens.now regions.now }
    requires samples_bound { s.samples ≤ 2048 }
    requires room { Room (cells_of s) (length b.old) (length u.old) (length w.old) }
    ensures started { Started s whole vs.now lens.now regions.now b.new u.new w.new }
    ensures f_after { f.new ≡ replicate (length f.old) s0 }
    ensures rows_after { rows.new ≡ replicate (length rows.old) 0 }
    ensures triples_after { triples.new ≡ replicate (length triples.old) f0 }
{
    fill(s, whole, vs, lens, regions, b, u, w);
    f.fill(0.0);
    rows.fill(0);
    triples.fill(0.0);
}
