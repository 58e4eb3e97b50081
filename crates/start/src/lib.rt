// What planning starts from (adaptive.rs of the Rust, `Planner::new`): the stock, the wall distances, where
// the tool may go, what it can reach, and its tables, in the lent workspace.
#![tactic(auto)]

ghost use Rattle.std.specs.Prelude.{◌≡◌, ◌≤◌, length};
ghost use Rattle.raster.specs.Grid.{Sides};
ghost use Rattle.setup.specs.Place.{cells_of};
ghost use Rattle.entry.specs.Regions.{pocket_of, AllHeld};
ghost use Rattle.start.specs.Start.{Started};
ghost use Rattle.start.specs.Steps.{Room};

use setup::Setup;

mod allowed;
mod blocks;
mod reach;
pub mod ready;
mod stock;
mod tables;
mod walls;

// Fills the workspace for the first round; it may hold anything before. The vertices' coordinates, the
// loops' vertices and the regions' loops are lent, the pocket first, then the stock regions; `whole` says
// that there is no list of stock regions. An empty list is another thing: no stock.
pub fn fill(
    s: Setup,
    whole: bool,
    vs: &[f64],
    lens: &[u32],
    regions: &[u32],
    b: &mut [u8],
    u: &mut [u32],
    w: &mut [f64],
)
    requires sides { Sides s.grid }
    requires all_held { AllHeld vs.now lens.now regions.now }
    requires region_value { s.region ≡ pocket_of lens.now regions.now }
    requires samples_bound { s.samples ≤ 2048 }
    requires room { Room (cells_of s) (length b.old) (length u.old) (length w.old) }
    ensures { Started s whole vs.now lens.now regions.now b.new u.new w.new }
{
    let g = s.grid;
    let pocket = s.region;
    stock::stock(g, whole, vs, lens, regions, pocket, b, w);
    reach::reach(s, vs, lens, b, u, w);
    tables::tables(s, w);
    tables::clear_log(g, u);
}
