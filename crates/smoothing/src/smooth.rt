// Smoothing of traced curves: averaging with the neighbours takes out the raster's stair steps, then
// points closer than a cell are dropped.
ghost use Rattle.std.specs.Prelude.{◌≡◌, ◌+◌, ◌*◌, ◌≤◌, ◌<◌, length};
ghost use Rattle.geom.specs.Points.{points};
ghost use Rattle.smoothing.specs.Smooth.{mean_of, held_at, averaged, next_of, avg, average_put, spaced, kpt, keep_put, same_point, resampled, smooth_of, Begins, SmoothedRow, SmoothedAll};
ghost use Rattle.pieces.specs.Piece.{row_at, put_row, cut_to, end_of, Laid};

use geom::points::put;
use geom::region::vertex;
use geom::vec2::Vec2;
use numbers::bound::Bound;
use pieces::row::{Row, put_row, row_at};

fn mean(p: Vec2, a: Vec2, b: Vec2) -> Vec2
    ensures { result ≡ mean_of p a b }
{
    p.scale(0.5).add(a.add(b).scale(0.25))
}

// Whether point k of n is an end that is held.
fn held(closed: bool, n: usize, k: usize) -> bool
    requires { 0 < n }
    ensures { result ≡ held_at closed n k }
{
    if closed {
        return false;
    }
    (k == 0) | (k == n - 1)
}

// The old point after point k of n.
fn next(pts: &[f64], n: usize, k: usize, first: Vec2) -> Vec2
    requires k_lt_n { k < n }
    requires n_in_bounds { 2 * n ≤ length pts.now }
    ensures { result ≡ next_of n k first pts.now }
{
    if k + 1 == n {
        return first;
    }
    vertex(pts, k + 1)
}

// Averages point k of n; `first` and `prev` are old values of points that are averaged already. The old
// point k.
fn average_at(pts: &mut [f64], n: usize, closed: bool, k: usize, first: Vec2, prev: Vec2) -> Vec2
    requires k_lt_n { k < n }
    requires n_in_bounds { 2 * n ≤ length pts.old }
    ensures { avg pts.new result ≡ average_put closed n first k (avg pts.old prev) }
{
    let p = vertex(pts, k);
    if held(closed, n, k) {
        return p;
    }
    let m = mean(p, prev, next(pts, n, k, first));
    put(pts, k, m);
    p
}

// One pass of averaging with the neighbours, in place.
fn average(pts: &mut [f64], n: usize, closed: bool)
    requires n_nonzero { 0 < n }
    requires n_in_bounds { 2 * n ≤ length pts.old }
    ensures { Begins (averaged closed (points 0 n pts.old)) n pts.old n pts.new }
{
    let first = vertex(pts, 0);
    let mut prev = vertex(pts, n - 1);
    for k in 0..n {
        prev = average_at(pts, n, closed, k, first, prev);
    }
}

// Keeps point k as point `kept` if it is at least a cell from the one before; how many are kept.
fn keep_at(pts: &mut [f64], cell: Bound, k: usize, kept: usize) -> usize
    requires kept_nonzero { (0 < kept) × (kept ≤ k) }
    requires k_in_bounds { 2 * k + 1 < length pts.old }
    ensures { kpt pts.new result ≡ keep_put cell.r k (kpt pts.old kept) }
{
    let p = vertex(pts, k);
    let last = vertex(pts, kept - 1);
    if cell.root_reaches(last.square(p)) {
        put(pts, kept, p);
        return kept + 1;
    }
    kept
}

// Drops points closer than a cell to the last one kept, in place; how many are kept.
fn keep(pts: &mut [f64], n: usize, cell: Bound) -> usize
    requires n_nonzero { 0 < n }
    requires n_in_bounds { 2 * n ≤ length pts.old }
    ensures { Begins (spaced cell.r (points 0 n pts.old)) n pts.old result pts.new }
{
    let mut kept = 1;
    for k in 1..n {
        kept = keep_at(pts, cell, k, kept);
    }
    kept
}

fn same(a: Vec2, b: Vec2) -> bool
    ensures { result ≡ same_point a b }
{
    (a.x == b.x) & (a.y == b.y)
}

// Points at least a cell apart; an open piece keeps its end.
fn resample(pts: &mut [f64], n: usize, closed: bool, cell: Bound) -> usize
    requires lt_n { 1 < n }
    requires n_in_bounds { 2 * n ≤ length pts.old }
    ensures { Begins (resampled closed cell.r (points 0 n pts.old)) n pts.old result pts.new }
{
    let end = vertex(pts, n - 1);
    let kept = keep(pts, n, cell);
    if closed {
        return kept;
    }
    let last = vertex(pts, kept - 1);
    if same(last, end) {
        return kept;
    }
    put(pts, kept, end);
    kept + 1
}

// Smooths the n points; how many are left.
fn smooth(pts: &mut [f64], n: usize, closed: bool, cell: Bound) -> usize
    requires n_in_bounds { 2 * n ≤ length pts.old }
    ensures { Begins (smooth_of closed cell.r (points 0 n pts.old)) n pts.old result pts.new }
{
    if n < 3 {
        return n;
    }
    for t in 0..3usize {
        average(pts, n, closed);
    }
    resample(pts, n, closed, cell)
}

// Smooths the points of row k; how many are left.
fn smooth_row(rows: &mut [u32], pts: &mut [f64], k: usize, cell: Bound) -> usize
    requires k_in_bounds { 3 * k + 2 < length rows.old }
    requires k_in_bounds_2 { 2 * end_of (row_at rows.old k) ≤ length pts.old }
    ensures rows_after { rows.new ≡ put_row k (cut_to result (row_at rows.old k)) rows.old }
    ensures smoothed_row { SmoothedRow cell.r (row_at rows.old k) pts.old result pts.new }
{
    let p = row_at(rows, k);
    let n = p.points as usize;
    let a = 2 * (p.first as usize);
    let e = a + 2 * n;
    let m = smooth(&mut pts[a..e], n, p.closed, cell);
    put_row(
        rows,
        k,
        Row {
            first: p.first,
            points: m as u32,
            closed: p.closed,
        },
    );
    m
}

// Smooths the pieces of the first m rows.
pub fn smooth_all(rows: &mut [u32], pts: &mut [f64], m: usize, cell: f64)
    requires { Laid m rows.old pts.old }
    ensures { SmoothedAll m cell rows.old pts.old rows.new pts.new }
{
    let bound = Bound::of(cell);
    for k in 0..m {
        smooth_row(rows, pts, k, bound);
    }
}
