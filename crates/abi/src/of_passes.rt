// The functions of `passes`.
ghost use Rattle.std.specs.Prelude.{◌≡◌, true, ◌≤◌, length};
ghost use Rattle.setup.specs.Place.{Walls};
ghost use Rattle.setup.specs.Tables.{Tables};
ghost use Rattle.passes.specs.Simulate.{Usable};
ghost use Rattle.abi.specs.Geom.{region};
ghost use Rattle.abi.specs.Raster.{grid};
ghost use Rattle.abi.specs.Passes.{passing, PassBy};
ghost use Rattle.abi.specs.Setup.{loose};

use geom::region::Region;
use geom::vec2::Vec2;
use numbers::bound::Bound;
use raster::grid::Grid;
use setup::Setup;

pub fn passing(
    grid: Grid,
    region: Region,
    r: f64,
    wide: f64,
    keep: f64,
    target: f64,
    guard: f64,
    samples: usize,
    keep_down: bool,
) -> Setup
    ensures { (result ≡ passing grid region r wide result.keep target guard samples keep_down) × (result.keep.r ≡ keep) }
{
    Setup {
        grid,
        region,
        r,
        r_guard: wide,
        keep: Bound::of(keep),
        target,
        guard,
        samples,
        keep_down,
    }
}

// Whether the triples were too few; `out` gets the points, the cells removed and the work.
#[unsafe(no_mangle)]
pub extern "C" fn passes_simulate(
    ox: f64,
    oy: f64,
    cell: f64,
    nx: usize,
    ny: usize,
    wall: &[f64],
    vs: &[f64],
    lens: &[u32],
    at: usize,
    first: usize,
    loops: usize,
    r: f64,
    wide: f64,
    keep: f64,
    target: f64,
    guard: f64,
    samples: usize,
    rim: &[f64],
    guide: &[f64],
    map: &mut [u8],
    log: &mut [u32],
    triples: &mut [f64],
    kept: usize,
    out: &mut [u64],
) -> bool
    requires walls { Walls (passing (grid ox oy cell nx ny) (region at first loops) r wide (loose keep) target guard samples true) wall.now vs.now lens.now }
    requires tables { Tables (passing (grid ox oy cell nx ny) (region at first loops) r wide (loose keep) target guard samples true) rim.now }
    requires usable { Usable (passing (grid ox oy cell nx ny) (region at first loops) r wide (loose keep) target guard samples true) map.old log.old guide.now }
    requires in_bounds { 3 ≤ length out.old }
    ensures { PassBy (grid ox oy cell nx ny) (region at first loops) r wide keep target guard samples wall.now vs.now lens.now guide.now kept map.old log.old triples.old map.new log.new triples.new result out.new }
{
    let origin = Vec2 { x: ox, y: oy };
    let g = Grid {
        origin,
        cell,
        nx,
        ny,
    };
    let s = passing(
        g,
        Region { at, first, loops },
        r,
        wide,
        keep,
        target,
        guard,
        samples,
        true,
    );
    let mut tiles = [0u8; 20480];
    rims::tiles::fill(s.grid, map, &mut tiles);
    let t = passes::trial::simulate(
        s, wall, vs, lens, rim, guide, map, &tiles, log, triples, kept,
    );
    out[0] = t.points as u64;
    out[1] = t.removed as u64;
    out[2] = t.work as u64;
    t.full
}
