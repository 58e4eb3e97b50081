// Where the points of a cell lie on a side of the grid: between two numbers that the side's arithmetic puts into other
// cells. Tested, so that no rounding has to be reckoned with.
ghost use Rattle.std.specs.Prelude.{◌≡◌, true, ◌≤◌, ◌<◌};
ghost use Rattle.raster.specs.Grid.{Sides};
ghost use Rattle.spans.specs.Ends.{below_of, beyond_of, Edged, AllEdged, Tame};

use numbers::cast::float_of;
use numbers::order::is_finite;
use raster::grid::Grid;

pub fn below(o: f64, cell: f64, i: usize) -> f64
    ensures { result ≡ below_of o cell i }
{
    o + (float_of(i) - 0.000001) * cell
}

pub fn beyond(o: f64, cell: f64, i: usize) -> f64
    ensures { result ≡ beyond_of o cell i }
{
    o + (float_of(i) + 1.000001) * cell
}

fn is_edged(o: f64, cell: f64, i: usize) -> bool
    requires { i < 4096 }
    ensures { result ≡ true → Edged o cell i }
{
    let a = below(o, cell, i);
    let b = beyond(o, cell, i);
    let finite = is_finite(a) & is_finite(b);
    let low = (a - o) / cell < float_of(i);
    let high = float_of(i + 1) <= (b - o) / cell;
    finite & (low & high)
}

fn are_edged(o: f64, cell: f64, n: usize) -> bool
    requires { n ≤ 4096 }
    ensures { result ≡ true → AllEdged o cell n }
{
    for i in 1..n {
        if !is_edged(o, cell, i) {
            return false;
        }
    }
    true
}

// Whether a grid's arithmetic is as plain as a table needs it.
pub fn is_tame(g: Grid) -> bool
    requires { Sides g }
    ensures { result ≡ true → Tame g }
{
    let origin = g.origin;
    let corner = is_finite(origin.x) & is_finite(origin.y);
    let positive = is_finite(g.cell) & (0.0 < g.cell);
    if corner & positive {
        if are_edged(origin.x, g.cell, g.nx) {
            return are_edged(origin.y, g.cell, g.ny);
        }
    }
    false
}
