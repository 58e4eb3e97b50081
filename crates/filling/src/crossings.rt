// Where a row of cells is crossed by the edges of a loop, told by columns.
ghost use Rattle.std.specs.Prelude.{◌≡◌, true, IfSome, ◌+◌, ◌*◌, ◌≤◌, ◌<◌, length};
ghost use Rattle.geom.specs.Region.{before, vertex_of, crossing_of};
ghost use Rattle.filling.specs.Columns.{Centred, Rising, Before, NextCrossing, left_from, crosses, ordered_of, Paired};

use super::centres::columns_before;
use geom::region::{crossing, straddles, vertex};
use raster::grid::Grid;

// Two crossings of a row lie before columns a and b, in order; `next` is the next edge that crosses it, if one does. A
// crossing without a second one is paired with column 0.
#[derive(Clone, Copy)]
pub struct Pair {
    pub a: usize,
    pub b: usize,
    pub next: Option<usize>,
}

// The vertex before vertex i of a loop of n.
fn previous(n: usize, i: usize) -> usize
    requires { i < n }
    ensures { (result ≡ before n i) × (result < n) }
{
    if i == 0 { n - 1 } else { i - 1 }
}

// The first edge from `from` on that crosses the row y.
pub fn next_crossing(vs: &[f64], at: usize, n: usize, y: f64, from: usize) -> Option<usize>
    requires { (2 * (at + n) ≤ length vs.now) × (from ≤ n) }
    ensures { NextCrossing vs.now at n y from (left_from n result) × IfSome result (λ i. i < n) }
{
    if from == n {
        return None;
    }
    let mut b = vertex(vs, at + previous(n, from));
    for i in from..n {
        let a = vertex(vs, at + i);
        if straddles(a, b, y) {
            return Some(i);
        }
        b = a;
    }
    None
}

// The columns left of where edge i crosses the row.
fn edge_columns(g: Grid, xs: &[f64], vs: &[f64], at: usize, n: usize, y: f64, i: usize) -> usize
    requires centred { Centred g xs.now }
    requires rising { Rising xs.now }
    requires n_in_bounds { (2 * (at + n) ≤ length vs.now) × (i < n) }
    ensures { Before xs.now (crossing_of (vertex_of vs.now (at + i)) (vertex_of vs.now (at + before n i)) y) result }
{
    let a = vertex(vs, at + i);
    let b = vertex(vs, at + previous(n, i));
    columns_before(g, xs, crossing(a, b, y))
}

fn ordered(k: usize, l: usize, next: Option<usize>) -> Pair
    ensures { result ≡ ordered_of k l next }
{
    if k < l {
        return Pair { a: k, b: l, next };
    }
    Pair { a: l, b: k, next }
}

// Edge i crosses the row: it and the next one that does.
pub fn pair_from(g: Grid, xs: &[f64], vs: &[f64], at: usize, n: usize, y: f64, i: usize) -> Pair
    requires centred { Centred g xs.now }
    requires rising { Rising xs.now }
    requires n_in_bounds { (2 * (at + n) ≤ length vs.now) × (i < n) × (crosses vs.now at n y i ≡ true) }
    ensures { Paired xs.now vs.now at n y i result }
{
    let k = edge_columns(g, xs, vs, at, n, y, i);
    let Some(j) = next_crossing(vs, at, n, y, i + 1) else {
        return Pair {
            a: 0,
            b: k,
            next: None,
        };
    };
    let l = edge_columns(g, xs, vs, at, n, y, j);
    ordered(k, l, next_crossing(vs, at, n, y, j + 1))
}
