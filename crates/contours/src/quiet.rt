// Runs of squares that have no segment, told by which signs their corners have against the level.
ghost use Rattle.std.specs.Prelude.{◌≡◌, ◌≤◌, true, length};
ghost use Rattle.raster.specs.Grid.{Over};
ghost use Rattle.contours.specs.Quiet.{InRow, Quiet, signs_of};

use raster::grid::Grid;

// Whether a value is above a level, and whether one is at it or below.
#[derive(Clone, Copy)]
struct Signs {
    above: bool,
    below: bool,
}

// Of the values from..to. There is no way out of the loop, so that many are compared at once.
fn signs_of(f: &[f32], level: f32, from: usize, to: usize) -> Signs
    requires { (from ≤ to) × (to ≤ length f.now) }
    ensures { result ≡ signs_of f.now level from to }
{
    let mut above = false;
    let mut below = false;
    for &v in &f[from..to] {
        above |= v > level;
        below |= v <= level;
    }
    Signs { above, below }
}

// Whether the corners of the squares from column a on before e of row j lack one of the signs.
pub fn is_quiet(g: Grid, f: &[f32], level: f32, a: usize, e: usize, j: usize) -> bool
    requires over { Over g (length f.now) }
    requires in_row { InRow g a e j }
    ensures { result ≡ true → Quiet g f.now level a e j }
{
    let nx = g.nx;
    let base = j * nx;
    let from = base + a;
    let to = base + e + 1;
    let lower = signs_of(f, level, from, to);
    let upper = signs_of(f, level, from + nx, to + nx);
    !(lower.above | upper.above) | !(lower.below | upper.below)
}
