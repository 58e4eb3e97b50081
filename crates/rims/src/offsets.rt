// The table: behind the rim's directions, for each sample the cell that it lies in, counted from the centre's cell.
ghost use Rattle.std.specs.Prelude.{◌≡◌, true, ◌+◌, ◌≤◌, ◌<◌, ◌^◌, length};
ghost use Rattle.raster.specs.Grid.{Sides};
ghost use Rattle.raster.specs.Contact.{Rim};
ghost use Rattle.rims.specs.Offsets.{reach_of, middle_of, place_of, Fixed, Entry, Words, AllTold, Entered, Rims};

use geom::vec2::Vec2;
use numbers::cast::{float_of, sat_u32};
use raster::grid::Grid;

// The whole cells that cover the radius: from a cell that has so many on each side the rim stays on the grid.
pub fn reach_of(g: Grid, r: f64) -> usize
    ensures { (result ≡ reach_of g r) × (result ≤ 2 ^ 32) }
{
    sat_u32(r / g.cell) as usize + 1
}

// The centre of cell i of a row of cells, or of a column of them.
fn middle_of(o: f64, cell: f64, i: usize) -> f64
    ensures { result ≡ middle_of o cell i }
{
    o + (float_of(i) + 0.5) * cell
}

// The cell of n in which x lies; n where it is in none.
fn place_of(o: f64, cell: f64, n: usize, x: f64) -> usize
    ensures { result ≡ place_of o cell n x }
{
    let f = (x - o) / cell;
    if f >= 0.0 {
        let i = sat_u32(f) as usize;
        if i < n {
            return i;
        }
    }
    n
}

// Whether the point v beside the centre of cell i lies in cell i + a - s, for every i with s cells on both sides.
fn is_fixed(o: f64, cell: f64, n: usize, s: usize, v: f64, a: usize) -> bool
    requires n_bound { n ≤ 4096 }
    requires s_bound { s ≤ 2 ^ 32 }
    requires a_bound { a ≤ 4096 }
    ensures { result ≡ true → Fixed o cell n s v a }
{
    if n < s {
        return true;
    }
    let e = n - s;
    for i in s..e {
        let p = place_of(o, cell, n, middle_of(o, cell, i) + v);
        if n <= p {
            return false;
        }
        if p + s != i + a {
            return false;
        }
    }
    true
}

// What the table holds of the direction u: 1 more than the cell's number, counted from the cell s columns and rows
// before the centre's; 0 where that differs from cell to cell.
fn entry_of(g: Grid, r: f64, s: usize, u: Vec2) -> u64
    requires sides { Sides g }
    requires s_bound { s ≤ 2 ^ 32 }
    ensures { (result < 2 ^ 32) × Entry g r s u result }
{
    let v = u.scale(r);
    let o = g.origin;
    let cell = g.cell;
    let nx = g.nx;
    let ny = g.ny;
    let a = place_of(o.x, cell, nx, middle_of(o.x, cell, s) + v.x);
    if is_fixed(o.x, cell, nx, s, v.x, a) {
        let c = place_of(o.y, cell, ny, middle_of(o.y, cell, s) + v.y);
        if is_fixed(o.y, cell, ny, s, v.y, c) {
            return (c * nx + a + 1) as u64;
        }
    }
    0
}

// Works out the entries of n samples behind their directions.
fn fill_entries(g: Grid, r: f64, n: usize, w: &mut [f64])
    requires sides { Sides g }
    requires rim { Rim n w.old }
    requires n_bound { n ≤ 2048 }
    requires in_bounds { 6144 ≤ length w.old }
    ensures { (length w.new ≡ length w.old) × Entered g r n w.new }
{
    let s = reach_of(g, r);
    for k in 0..n {
        let u = Vec2 {
            x: w[2 * k],
            y: w[2 * k + 1],
        };
        w[4096 + k] = f64::from_bits(entry_of(g, r, s, u));
    }
}

// Whether each of n samples has a cell.
fn are_told(w: &[f64], n: usize) -> bool
    requires { Words n w.now }
    ensures { result ≡ true → AllTold n w.now }
{
    for k in 0..n {
        if f64::to_bits(w[4096 + k]) == 0 {
            return false;
        }
    }
    true
}

// Works out the table of n samples behind their directions. Where one has no cell the first is told to have none: so one
// look tells whether the table serves.
pub fn fill(g: Grid, r: f64, n: usize, w: &mut [f64])
    requires sides { Sides g }
    requires rim { Rim n w.old }
    requires n_bound { n ≤ 2048 }
    requires in_bounds { 6144 ≤ length w.old }
    ensures { Rims g r n w.new }
{
    fill_entries(g, r, n, w);
    if !are_told(w, n) {
        w[4096] = 0.0;
    }
}
