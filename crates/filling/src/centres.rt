// The columns of a raster by the x of their centres, and how many of them are left of a place.
ghost use Rattle.std.specs.Prelude.{◌≡◌, true, ◌≤◌, length};
ghost use Rattle.filling.specs.Columns.{Centred, Rising, Past, Skipped, Before};

use numbers::cast::{float_of, sat_u32};
use raster::grid::Grid;

// The x of each column's centres.
pub fn centres(g: Grid, xs: &mut [f64])
    requires { length xs.old ≡ g.nx }
    ensures { Centred g xs.new }
{
    for (i, x) in xs.iter_mut().enumerate() {
        *x = g.origin.x + (float_of(i) + 0.5) * g.cell;
    }
}

// Whether no column is left of the one before it. So it is on every grid with a cell above 0.
pub fn rises(xs: &[f64]) -> bool
    ensures { result ≡ true → Rising xs.now }
{
    xs.windows(2).all(|pair| pair[0] <= pair[1])
}

// About how many columns are left of x.
fn guess(g: Grid, x: f64) -> usize
    ensures { result ≤ g.nx }
{
    let k = sat_u32((x - g.origin.x) / g.cell + 0.5) as usize;
    if k < g.nx { k } else { g.nx }
}

// The first column from k on that is not left of x.
fn skip_left(xs: &[f64], x: f64, from: usize) -> usize
    requires { from ≤ length xs.now }
    ensures past { Past xs.now x result }
    ensures skipped { Skipped xs.now x from result }
{
    for k in from..xs.len() {
        if !(xs[k] < x) {
            return k;
        }
    }
    xs.len()
}

// Back from there to the first of all.
fn step_back(xs: &[f64], x: f64, from: usize) -> usize
    requires past { Past xs.now x from }
    requires rising { Rising xs.now }
    ensures { Before xs.now x result }
{
    for k in (0..from).rev() {
        if xs[k] < x {
            return k + 1;
        }
    }
    0
}

// How many columns are left of x: a guess, put right by the centres.
pub fn columns_before(g: Grid, xs: &[f64], x: f64) -> usize
    requires centred { Centred g xs.now }
    requires rising { Rising xs.now }
    ensures { Before xs.now x result }
{
    step_back(xs, x, skip_left(xs, x, guess(g, x)))
}
