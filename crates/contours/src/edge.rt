// The edges between neighbouring cell centres, and where a field crosses a level on one. The number of
// an edge is twice its lower cell's, and one more where it goes up.
ghost use Rattle.std.specs.Prelude.{◌≡◌, ◌^◌, ◌<◌, length, slice_index, slice_set};
ghost use Rattle.raster.specs.Grid.{Sides, Over};
ghost use Rattle.contours.specs.Edge.{edge, across_of, upward_of, lower_of, is_upward, Between, far_of, far_center, along_of, crossing_at};

use geom::vec2::Vec2;
use raster::grid::{CellNo, Grid, cell_at, center, column_of, index_of, row_of};

// The number of an edge, or NOTHING where there is none.
#[derive(Clone, Copy, PartialEq, Eq)]
pub struct EdgeNo(pub u32);

pub const NOTHING: EdgeNo = EdgeNo(4294967295);

// An edge's place in a table.
impl From<EdgeNo> for usize {
    ghost from_gives = { λ e i. i ≡ e.0 };

    fn from(e: EdgeNo) -> usize {
        e.0 as usize
    }
}

// The edge that the words have at i.
pub fn edge_at(words: &[u32], i: usize) -> EdgeNo
    requires { i < length words.now }
    ensures { result ≡ edge (slice_index words.now i) }
{
    EdgeNo(words[i])
}

pub fn put_edge(words: &mut [u32], i: usize, e: EdgeNo)
    requires { i < length words.old }
    ensures { words.new ≡ slice_set words.old i e.0 }
{
    words[i] = e.0;
}

// The edge to the right of a cell, and the one upward of it.
pub fn across(c: CellNo) -> EdgeNo
    requires { c.0 < 2 ^ 31 }
    ensures { result ≡ across_of c }
{
    EdgeNo(2 * c.0)
}

pub fn upward(c: CellNo) -> EdgeNo
    requires { c.0 < 2 ^ 31 }
    ensures { result ≡ upward_of c }
{
    EdgeNo(2 * c.0 + 1)
}

pub fn lower_cell(e: EdgeNo) -> CellNo
    ensures { result ≡ lower_of e }
{
    CellNo(e.0 / 2)
}

pub fn is_upward(e: EdgeNo) -> bool
    ensures { result ≡ is_upward e }
{
    e.0 % 2 == 1
}

// The other cell.
fn far_cell(g: Grid, e: EdgeNo) -> CellNo
    requires sides { Sides g }
    requires between { Between g e }
    ensures { result.0 ≡ far_of g e }
{
    let k = index_of(lower_cell(e));
    if is_upward(e) {
        cell_at(k + g.nx)
    } else {
        cell_at(k + 1)
    }
}

// The other cell's centre; (i, j) is the lower cell.
fn far_center(g: Grid, e: EdgeNo, i: usize, j: usize) -> Vec2
    requires { (i < 2 ^ 32) × (j < 2 ^ 32) }
    ensures { result ≡ far_center g e i j }
{
    if is_upward(e) {
        center(g, i, j + 1)
    } else {
        center(g, i + 1, j)
    }
}

// How far along an edge the level is, from fa to fb; the middle where they are all but equal.
fn along(fa: f64, fb: f64, level: f64) -> f64
    ensures { result ≡ along_of fa fb level }
{
    let d = fb - fa;
    if numbers::order::abs(d) < 1e-12 {
        0.5
    } else {
        numbers::order::clamp((level - fa) / d, 0.0, 1.0)
    }
}

// Where the field crosses the level on an edge.
pub fn crossing(g: Grid, f: &[f32], level: f32, e: EdgeNo) -> Vec2
    requires over { Over g (length f.now) }
    requires between { Between g e }
    ensures { result ≡ crossing_at g f.now level e }
{
    let c = lower_cell(e);
    let i = column_of(g, c);
    let j = row_of(g, c);
    let fa = std::num::f32_to_f64_with_nan(f[index_of(c)]);
    let fb = std::num::f32_to_f64_with_nan(f[index_of(far_cell(g, e))]);
    let t = along(fa, fb, std::num::f32_to_f64_with_nan(level));
    center(g, i, j).lerp(far_center(g, e, i, j), t)
}
