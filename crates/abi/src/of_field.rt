// The functions of `field`. The Setup is made of its numbers; what the field does not read is 0.
ghost use Rattle.field.specs.Round.{Ready, Done};
ghost use Rattle.abi.specs.Raster.{grid};
ghost use Rattle.abi.specs.Setup.{sensing};

use geom::region::Region;
use geom::vec2::Vec2;
use numbers::bound::Bound;
use raster::grid::Grid;
use setup::Setup;

// The field of a round in a workspace whose tables are filled; how many cells were sampled.
#[unsafe(no_mangle)]
pub extern "C" fn field_round(
    ox: f64,
    oy: f64,
    cell: f64,
    nx: usize,
    ny: usize,
    r: f64,
    target: f64,
    samples: usize,
    all: bool,
    b: &mut [u8],
    u: &mut [u32],
    w: &[f64],
    f: &mut [f32],
) -> usize
    requires { Ready (sensing (grid ox oy cell nx ny) r target samples) b.old u.old w.now f.old }
    ensures { Done (sensing (grid ox oy cell nx ny) r target samples) all b.old u.old f.old result b.new u.new f.new }
{
    let origin = Vec2 { x: ox, y: oy };
    let grid = Grid {
        origin,
        cell,
        nx,
        ny,
    };
    let s = Setup {
        grid,
        region: Region {
            at: 0,
            first: 0,
            loops: 0,
        },
        r,
        r_guard: 0.0,
        keep: Bound {
            r: 0.0,
            below: None,
        },
        target,
        guard: 0.0,
        samples,
        keep_down: true,
    };
    field::round::field(s, all, b, u, w, f)
}
