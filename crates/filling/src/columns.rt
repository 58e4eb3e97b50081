// Which columns of a row a loop has: a run of them or, where its edges cross the row more than twice, a byte each.
ghost use Rattle.std.specs.Prelude.{◌*◌, ◌+◌, ◌≤◌, length};
ghost use Rattle.filling.specs.Columns.{Centred, Rising, Blank, Turned, Has, in_loop};

use super::crossings::{next_crossing, pair_from};
use raster::grid::Grid;

// Columns from the first on below the second; or those whose bytes are 1.
#[derive(Clone, Copy)]
pub enum Columns {
    Run(usize, usize),
    Many,
}

// Turns the bytes from a on below b: 1 becomes 0, all else 1.
fn turn(row: &mut [u8], a: usize, b: usize)
    requires { b ≤ length row.old }
    ensures { Turned a b row.old row.new }
{
    for i in a..b {
        row[i] = if row[i] == 1 { 0 } else { 1 };
    }
}

// The columns of the loop of n vertices from `at` on. The bytes come without a 1.
pub fn columns_of(
    g: Grid,
    xs: &[f64],
    vs: &[f64],
    at: usize,
    n: usize,
    y: f64,
    row: &mut [u8],
) -> Columns
    requires centred { Centred g xs.now }
    requires rising { Rising xs.now }
    requires n_in_bounds { 2 * (at + n) ≤ length vs.now }
    requires blank { Blank (length xs.now) row.old }
    ensures { Has (length xs.now) (in_loop xs.now vs.now at n y) result row.new }
{
    let mut a = 0;
    let mut b = 0;
    let mut many = false;
    let mut next = next_crossing(vs, at, n, y, 0);
    while let Some(i) = next {
        many = many | (a < b);
        turn(row, a, b);
        let p = pair_from(g, xs, vs, at, n, y, i);
        a = p.a;
        b = p.b;
        next = p.next;
    }
    if many {
        turn(row, a, b);
        return Columns::Many;
    }
    Columns::Run(a, b)
}
