// The functions of `setup` and the straight link. The Setup is made of its numbers; what the tests of a
// place do not read is 0.
ghost use Rattle.std.specs.Prelude.{◌≡◌, ◌≤◌, length};
ghost use Rattle.geom.specs.Vec.{v2};
ghost use Rattle.geom.specs.Region.{Held};
ghost use Rattle.raster.specs.Grid.{Sides, Over};
ghost use Rattle.raster.specs.Contact.{samples_of};
ghost use Rattle.setup.specs.Limits as Limits;
ghost use Rattle.setup.specs.Place.{allowed_at};
ghost use Rattle.setup.specs.Tables.{ToolTables, Tables};
ghost use Rattle.links.specs.Straight.{link_clear};
ghost use Rattle.abi.specs.Geom.{region};
ghost use Rattle.abi.specs.Raster.{grid};
ghost use Rattle.abi.specs.Setup.{placed, plain};

use geom::region::Region;
use geom::vec2::Vec2;
use links::straight::Ground;
use numbers::bound::Bound;
use raster::grid::Grid;
use setup::Setup;

#[unsafe(no_mangle)]
pub extern "C" fn setup_guard_of(limit: f64, cell: f64, r: f64) -> f64
    ensures { result ≡ Limits.guard_of limit cell r }
{
    setup::limits::guard_of(limit, cell, r)
}

#[unsafe(no_mangle)]
pub extern "C" fn setup_target_of(guard: f64) -> f64
    ensures { result ≡ Limits.target_of guard }
{
    setup::limits::target_of(guard)
}

#[unsafe(no_mangle)]
pub extern "C" fn setup_samples_of(r: f64, cell: f64) -> usize
    ensures { result ≡ Limits.samples_for r cell }
{
    setup::limits::samples_of(r, cell)
}

pub fn made(g: Grid, region: Region, r: f64, keep: f64, samples: usize) -> Setup
    ensures { (result ≡ placed g region r result.keep samples) × (result.keep.r ≡ keep) }
{
    Setup {
        grid: g,
        region,
        r,
        r_guard: 0.0,
        keep: Bound::of(keep),
        target: 0.0,
        guard: 0.0,
        samples,
        keep_down: true,
    }
}

#[unsafe(no_mangle)]
pub extern "C" fn setup_allowed_at(
    ox: f64,
    oy: f64,
    cell: f64,
    nx: usize,
    ny: usize,
    wall: &[f64],
    vs: &[f64],
    lens: &[u32],
    at: usize,
    first: usize,
    loops: usize,
    keep: f64,
    x: f64,
    y: f64,
) -> bool
    requires over { Over (grid ox oy cell nx ny) (length wall.now) }
    requires held { Held vs.now lens.now (region at first loops) }
    ensures { result ≡ allowed_at (plain (grid ox oy cell nx ny) (region at first loops) keep keep 0) wall.now vs.now lens.now (v2 x y) }
{
    let origin = Vec2 { x: ox, y: oy };
    let g = Grid {
        origin,
        cell,
        nx,
        ny,
    };
    let s = made(g, Region { at, first, loops }, keep, keep, 0);
    setup::place::allowed_at(&s, wall, vs, lens, Vec2 { x, y })
}

// The tool's tables of a workspace.
#[unsafe(no_mangle)]
pub extern "C" fn setup_fill_tables(
    ox: f64,
    oy: f64,
    cell: f64,
    nx: usize,
    ny: usize,
    r: f64,
    wide: f64,
    samples: usize,
    w: &mut [f64],
)
    requires sides { Sides (grid ox oy cell nx ny) }
    requires samples_bound { samples ≤ 2048 }
    requires in_bounds { 8192 ≤ length w.old }
    ensures { ToolTables (grid ox oy cell nx ny) r wide (samples_of samples) w.new }
{
    let origin = Vec2 { x: ox, y: oy };
    let g = Grid {
        origin,
        cell,
        nx,
        ny,
    };
    setup::tables::fill(g, r, wide, samples, w);
}

#[unsafe(no_mangle)]
pub extern "C" fn links_link_clear(
    ox: f64,
    oy: f64,
    cell: f64,
    nx: usize,
    ny: usize,
    wall: &[f64],
    vs: &[f64],
    lens: &[u32],
    at: usize,
    first: usize,
    loops: usize,
    r: f64,
    keep: f64,
    samples: usize,
    map: &[u8],
    tables: &[f64],
    ax: f64,
    ay: f64,
    bx: f64,
    by: f64,
) -> bool
    requires over { Over (grid ox oy cell nx ny) (length wall.now) }
    requires held { Held vs.now lens.now (region at first loops) }
    requires over_2 { Over (grid ox oy cell nx ny) (length map.now) }
    requires tables { Tables (plain (grid ox oy cell nx ny) (region at first loops) r keep samples) tables.now }
    ensures { result ≡ link_clear (plain (grid ox oy cell nx ny) (region at first loops) r keep samples) wall.now vs.now lens.now map.now (v2 ax ay) (v2 bx by) }
{
    let origin = Vec2 { x: ox, y: oy };
    let g = Grid {
        origin,
        cell,
        nx,
        ny,
    };
    let s = made(g, Region { at, first, loops }, r, keep, samples);
    let mut tiles = [0u8; 20480];
    rims::tiles::fill(s.grid, map, &mut tiles);
    let a = Vec2 { x: ax, y: ay };
    let b = Vec2 { x: bx, y: by };
    let ground = Ground {
        setup: s,
        wall,
        vs,
        lens,
        map,
        tiles: &tiles,
        rim: tables,
    };
    ground.link_clear(a, b)
}
