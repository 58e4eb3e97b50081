// Marching squares: the segments where a field crosses a level, in a lent slice. The edges that segment k
// joins stand at 2 k and 2 k + 1.
ghost use Rattle.std.specs.Prelude.{◌≡◌, ◌+◌, ◌-◌, ◌*◌, ◌<◌, ◌≤◌, length};
ghost use Rattle.raster.specs.Grid.{Over};
ghost use Rattle.contours.specs.Square.{InGrid, Joins, directed_of};
ghost use Rattle.contours.specs.March.{segments_of, put_segment, march_code, march_square, march_row, march, Gathered};
ghost use Rattle.contours.specs.Quiet.{InRow, march_run};

use super::edge::put_edge;
use super::quiet::is_quiet;
use super::square::{
    Saddle, Segment, Square, code_of, cut, directed, edges_of, has_nan, joined, saddle_of,
    square_at,
};
use raster::grid::Grid;

// Segment k becomes s.
fn put(segs: &mut [u32], k: usize, s: Segment)
    requires { 2 * k + 1 < length segs.old }
    ensures { segs.new ≡ put_segment k s segs.old }
{
    let i = 2 * k;
    put_edge(segs, i, s.from);
    put_edge(segs, i + 1, s.to);
}

// Puts the segment behind n others, turned so that the higher field is on its right.
fn push(g: Grid, f: &[f32], level: f32, q: Square, segs: &mut [u32], n: usize, s: Segment)
    requires over { Over g (length f.now) }
    requires in_grid { InGrid g q.i q.j }
    requires joins { Joins g s }
    requires n_in_bounds { 2 * n + 1 < length segs.old }
    ensures { segs.new ≡ put_segment n (directed_of g f.now level q s) segs.old }
{
    let d = directed(g, f, level, q, s);
    put(segs, n, d);
}

fn push_saddle(g: Grid, f: &[f32], level: f32, q: Square, segs: &mut [u32], n: usize, s: Saddle)
    requires over { Over g (length f.now) }
    requires in_grid { InGrid g q.i q.j }
    requires joins { Joins g s.first × Joins g s.second }
    requires n_in_bounds { 2 * n + 3 < length segs.old }
    ensures { segs.new ≡ put_segment (n + 1) (directed_of g f.now level q s.second) (put_segment n (directed_of g f.now level q s.first) segs.old) }
{
    let a = s.first;
    let b = s.second;
    push(g, f, level, q, segs, n, a);
    push(g, f, level, q, segs, n + 1, b);
}

// Puts the segments of a code behind n others; how many there are then.
fn push_code(
    g: Grid,
    f: &[f32],
    level: f32,
    q: Square,
    segs: &mut [u32],
    n: usize,
    code: usize,
) -> usize
    requires over { Over g (length f.now) }
    requires in_grid { InGrid g q.i q.j }
    requires n_in_bounds { 2 * n + 3 < length segs.old }
    ensures { Gathered (march_code g f.now level q code (segments_of n segs.old)) (n + 2) segs.old result segs.new }
{
    if (code == 0) | (code == 15) {
        return n;
    }
    let e = edges_of(g, q.i, q.j);
    if (code == 5) | (code == 10) {
        let s = saddle_of(e, code, joined(q, level));
        push_saddle(g, f, level, q, segs, n, s);
        return n + 2;
    }
    let s = cut(e, code);
    push(g, f, level, q, segs, n, s);
    n + 1
}

fn march_square(
    g: Grid,
    f: &[f32],
    level: f32,
    segs: &mut [u32],
    n: usize,
    i: usize,
    j: usize,
) -> usize
    requires over { Over g (length f.now) }
    requires in_grid { InGrid g i j }
    requires n_in_bounds { 2 * n + 3 < length segs.old }
    ensures { Gathered (march_square g f.now level i j (segments_of n segs.old)) (n + 2) segs.old result segs.new }
{
    let q = square_at(g, f, i, j);
    if has_nan(q) {
        return n;
    }
    let code = code_of(q, level);
    push_code(g, f, level, q, segs, n, code)
}

// The squares from column a on before e of row j.
fn march_squares(
    g: Grid,
    f: &[f32],
    level: f32,
    segs: &mut [u32],
    n: usize,
    a: usize,
    e: usize,
    j: usize,
) -> usize
    requires over { Over g (length f.now) }
    requires in_row { InRow g a e j }
    requires a_in_bounds { 2 * (n + 2 * (e - a)) ≤ length segs.old }
    ensures { Gathered (march_run g f.now level a e j (segments_of n segs.old)) (n + 2 * (e - a)) segs.old result segs.new }
{
    let mut m = n;
    for i in a..e {
        m = march_square(g, f, level, segs, m, i, j);
    }
    m
}

// The same, but a quiet run is passed over.
fn march_run(
    g: Grid,
    f: &[f32],
    level: f32,
    segs: &mut [u32],
    n: usize,
    a: usize,
    e: usize,
    j: usize,
) -> usize
    requires over { Over g (length f.now) }
    requires in_row { InRow g a e j }
    requires a_in_bounds { 2 * (n + 2 * (e - a)) ≤ length segs.old }
    ensures { Gathered (march_run g f.now level a e j (segments_of n segs.old)) (n + 2 * (e - a)) segs.old result segs.new }
{
    if is_quiet(g, f, level, a, e, j) {
        return n;
    }
    march_squares(g, f, level, segs, n, a, e, j)
}

// Where a run from column a on ends: 32 squares on, or with the row.
fn run_end(a: usize, last: usize) -> usize
    requires { a < last }
    ensures { (a < result) × (result ≤ last) }
{
    if last - a < 32 { last } else { a + 32 }
}

fn march_row(g: Grid, f: &[f32], level: f32, segs: &mut [u32], n: usize, j: usize) -> usize
    requires over { Over g (length f.now) }
    requires j_bound { j + 1 < g.ny }
    requires nx_in_bounds { 2 * (n + 2 * g.nx) ≤ length segs.old }
    ensures { Gathered (march_row g f.now level j (segments_of n segs.old)) (n + 2 * g.nx) segs.old result segs.new }
{
    let last = g.nx - 1;
    let mut m = n;
    // Run by run: the last one is shorter, which a range's steps do not tell.
    let mut a = 0;
    while a < last {
        let e = run_end(a, last);
        m = march_run(g, f, level, segs, m, a, e, j);
        a = e;
    }
    m
}

// The segments of all squares, at most two of each, are the r first; the rest is as it comes.
pub fn march(g: Grid, f: &[f32], level: f32, segs: &mut [u32]) -> usize
    requires over { Over g (length f.now) }
    requires nx_in_bounds { 4 * (g.ny * g.nx) ≤ length segs.old }
    ensures { Gathered (march g f.now level) (2 * (g.ny * g.nx)) segs.old result segs.new }
{
    let mut n = 0;
    for j in 0..g.ny - 1 {
        n = march_row(g, f, level, segs, n, j);
    }
    n
}
