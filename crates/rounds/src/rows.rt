// The rows of a round's pieces in the workspace of n cells.
ghost use Rattle.std.specs.Prelude.{◌≡◌, ◌-◌, ◌*◌, ◌≤◌, ◌<◌, length};
ghost use Rattle.loops.specs.Regions.{put};
ghost use Rattle.setup.specs.Layout.{most, rows_from, log_from};
ghost use Rattle.pieces.specs.Piece.{row_at, put_row};
ghost use Rattle.workspace.specs.Lies.{rows_in, pieces_in, Lying};
ghost use Rattle.rounds.specs.Next.{here_of, next_of};

use super::next::{here, nearest};
use geom::vec2::Vec2;
use pieces::row::{Row, put_row, row_at};
use setup::layout;
use workspace::places;

// Row k.
pub fn read(u: &[u32], n: usize, k: usize) -> Row
    requires n_le_most { n ≤ most }
    requires n_in_bounds { 24 * n ≤ length u.now }
    requires k_lt_n { k < n }
    ensures { result ≡ row_at (rows_in n u.now) k }
{
    let a = places::rows(n);
    let e = layout::log(n);
    row_at(&u[a..e], k)
}

// Row k of m is taken out, and the last one takes its place.
fn swap_remove(rows: &mut [u32], m: usize, k: usize) -> Row
    requires m_in_bounds { 3 * m ≤ length rows.old }
    requires k_lt_m { k < m }
    ensures value { result ≡ row_at rows.old k }
    ensures rows_after { rows.new ≡ put_row k (row_at rows.old (m - 1)) rows.old }
{
    let r = row_at(rows, k);
    let last = row_at(rows, m - 1);
    put_row(rows, k, last);
    r
}

// The number of the row whose piece is nearest to the tool, of m.
fn next(u: &[u32], w: &[f64], n: usize, m: usize, pos: Option<Vec2>) -> usize
    requires n_le_most { n ≤ most }
    requires n_in_bounds { 24 * n ≤ length u.now }
    requires n_in_bounds_2 { 5 * n ≤ length w.now }
    requires lying { Lying n m u.now }
    requires le_m { 1 ≤ m }
    ensures { result ≡ next_of (pieces_in n m u.now w.now) (here_of pos) }
{
    let a = places::rows(n);
    let e = layout::log(n);
    let f = layout::traced(n);
    let g = layout::guide(n);
    nearest(&u[a..e], &w[f..g], m, here(pos))
}

// The row of the nearest of m pieces, taken out.
pub fn take_nearest(u: &mut [u32], w: &[f64], n: usize, m: usize, pos: Option<Vec2>) -> Row
    requires n_le_most { n ≤ most }
    requires n_in_bounds { 24 * n ≤ length u.old }
    requires n_in_bounds_2 { 5 * n ≤ length w.now }
    requires lying { Lying n m u.old }
    requires le_m { 1 ≤ m }
    ensures value { result ≡ row_at (rows_in n u.old) (next_of (pieces_in n m u.old w.now) (here_of pos)) }
    ensures u_after { u.new ≡ put (rows_from n) (log_from n) (put_row (next_of (pieces_in n m u.old w.now) (here_of pos)) (row_at (rows_in n u.old) (m - 1)) (rows_in n u.old)) u.old }
{
    let k = next(u, w, n, m, pos);
    let a = places::rows(n);
    let e = layout::log(n);
    swap_remove(&mut u[a..e], m, k)
}
