// The cells of a row whose centres lie in a disk, the rows that a disk can reach, and a crescent's row.
ghost use Rattle.std.specs.Prelude.{◌≡◌, true, false, ◌-◌, ◌^◌, ◌≤◌, min, pos};
ghost use Rattle.std.specs.Float.Ieee as Ieee;
ghost use Rattle.std.specs.Float.{fin};
ghost use Rattle.numbers.specs.Whole.{floor_of};
ghost use Rattle.numbers.specs.Cast.{float};
ghost use Rattle.raster.specs.Disk.{row_y, cell_at, first_from, cols_of, chord_of, last_row, rows_of, left_of, right_of, less};
ghost use Rattle.raster.specs.Sweep.{Inside, cells_of};

use super::grid::Grid;
use geom::vec2::Vec2;
use numbers::cast::float_of;

// Columns from the first to the second, both in.
pub type Cols = (usize, usize);

// The first row and the last. Of a disk that reaches no row the first may come after the last, as far as usize goes.
#[derive(Clone, Copy)]
pub struct Rows(pub usize, pub usize);

// The columns of a row in a crescent: at most two spans.
#[derive(Clone, Copy)]
pub struct Crescent {
    pub left: Option<Cols>,
    pub right: Option<Cols>,
}

// The cells of a row's columns, from the first up to the second. The row begins at cell base.
pub fn cells_of(base: usize, columns: Option<Cols>) -> (usize, usize)
    requires { Inside base (2 ^ 63) columns }
    ensures { result ≡ cells_of base columns }
{
    let Some((first, last)) = columns else {
        return (0, 0);
    };
    if first <= last {
        return (base + first, base + last + 1);
    }
    (0, 0)
}

pub fn row_y(g: Grid, j: usize) -> f64
    ensures { result ≡ row_y g j }
{
    g.origin.y + (float_of(j) + 0.5) * g.cell
}

// A coordinate as a fractional cell number: the centre of cell i is at i.
pub fn place(x: f64, o: f64, cell: f64) -> f64
    ensures { result ≡ cell_at x o cell }
{
    (x - o) / cell - 0.5
}

// The first whole cell number from x on.
fn first_from(x: f64) -> f64
    ensures { result ≡ first_from x }
{
    numbers::order::max(numbers::whole::ceil(x), 0.0)
}

fn at_most_last(i: usize, n: usize) -> usize
    ensures { result ≡ min i (n - 1) }
{
    if i < n {
        return i;
    }
    if n == 0 {
        return 0;
    }
    n - 1
}

// The columns between two whole cell numbers.
fn cols_of(i0: f64, i1: f64, nx: usize) -> Option<Cols>
    ensures { result ≡ cols_of i0 i1 nx }
{
    if i1 < 0.0 {
        return None;
    }
    if i1 < i0 {
        return None;
    }
    if float_of(nx) <= i0 {
        return None;
    }
    Some((
        numbers::cast::sat_u64(i0) as usize,
        at_most_last(numbers::cast::sat_u64(i1) as usize, nx),
    ))
}

// The same of numbers that are whole already.
fn cols_between(k0: usize, k1: usize, nx: usize) -> Option<Cols>
    requires k0_bound { k0 ≤ 2 ^ 32 }
    requires k1_bound { k1 ≤ 2 ^ 32 }
    ensures { result ≡ cols_of (float k0) (float k1) nx }
{
    if k1 < k0 {
        return None;
    }
    if nx <= k0 {
        return None;
    }
    Some((k0, at_most_last(k1, nx)))
}

// The first whole cell number from x on, for 1 <= x < 2^32: the cast, raised where it cut.
fn raised(x: f64) -> usize
    requires x_value { Ieee.le (fin false 1 (pos 0)) x ≡ true }
    requires pos_value { Ieee.lt x (fin false 1 (pos 32)) ≡ true }
    ensures { (float result ≡ first_from x) × (result ≤ 2 ^ 32) }
{
    let t = numbers::cast::sat_u32(x);
    if (t as f64) < x {
        return (t as usize) + 1;
    }
    t as usize
}

// The columns from place x0 to place x1. On a grid both are cast at once; floors and ceilings as floats take
// several times as long.
pub fn cols_from(x0: f64, x1: f64, nx: usize) -> Option<Cols>
    ensures { result ≡ cols_of (first_from x0) (floor_of x1) nx }
{
    if (x0 >= 1.0) & (x0 < 4294967296.0) & (x1 >= 1.0) & (x1 < 4294967296.0) {
        return cols_between(raised(x0), numbers::cast::sat_u32(x1) as usize, nx);
    }
    cols_of(first_from(x0), numbers::whole::floor(x1), nx)
}

// The columns of a row in the disk at c. Its radius comes squared, once for all its rows.
pub fn chord(g: Grid, c: Vec2, r2: f64, j: usize) -> Option<Cols>
    ensures { result ≡ chord_of g c r2 j }
{
    let dy = row_y(g, j) - c.y;
    let h2 = r2 - dy * dy;
    if h2 < 0.0 {
        return None;
    }
    let h = numbers::root::sqrt(h2);
    let x0 = place(c.x - h, g.origin.x, g.cell);
    let x1 = place(c.x + h, g.origin.x, g.cell);
    cols_from(x0, x1, g.nx)
}

fn last_row(j1: f64, ny: usize) -> usize
    ensures { result ≡ last_row j1 ny }
{
    if j1 < 0.0 {
        return 0;
    }
    at_most_last(numbers::cast::sat_u64(j1) as usize, ny)
}

pub fn rows_of(g: Grid, c: Vec2, r: f64) -> Rows
    ensures { result ≡ rows_of g c r }
{
    let j0 = first_from(place(c.y - r, g.origin.y, g.cell));
    let j1 = numbers::whole::floor(place(c.y + r, g.origin.y, g.cell));
    Rows(numbers::cast::sat_u64(j0) as usize, last_row(j1, g.ny))
}

fn left_of(i0: usize, p0: usize) -> Option<Cols>
    ensures { result ≡ left_of i0 p0 }
{
    if i0 < p0 {
        return Some((i0, p0 - 1));
    }
    None
}

fn right_of(p1: usize, i1: usize) -> Option<Cols>
    ensures { result ≡ right_of p1 i1 }
{
    if p1 < i1 {
        return Some((p1 + 1, i1));
    }
    None
}

// The first span without the second.
fn span_less(s: Option<Cols>, q: Option<Cols>) -> Crescent
    ensures { result ≡ less s q }
{
    let whole = Crescent {
        left: s,
        right: None,
    };
    let Some((i0, i1)) = s else {
        return whole;
    };
    let Some((p0, p1)) = q else {
        return whole;
    };
    if i1 < p0 {
        return whole;
    }
    if p1 < i0 {
        return whole;
    }
    Crescent {
        left: left_of(i0, p0),
        right: right_of(p1, i1),
    }
}

pub fn crescent_row(g: Grid, prev: Vec2, c: Vec2, r2: f64, j: usize) -> Crescent
    ensures { result ≡ less (chord_of g c r2 j) (chord_of g prev r2 j) }
{
    span_less(chord(g, c, r2, j), chord(g, prev, r2, j))
}
