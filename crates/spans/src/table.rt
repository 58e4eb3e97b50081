// The table filled in: the columns of a disk's rows, each tested at the edges of every row and column with room.
ghost use Rattle.std.specs.Prelude.{◌≡◌, true, IfSome, ◌+◌, ◌*◌, ◌≤◌, ◌<◌, length};
ghost use Rattle.std.specs.Float.{binary64};
ghost use Rattle.std.specs.Float.Ieee.{mul};
ghost use Rattle.numbers.specs.Order.{is_finite};
ghost use Rattle.raster.specs.Grid.{Sides};
ghost use Rattle.spans.specs.Spans.{Spanning};
ghost use Rattle.spans.specs.Ends.{Tame, RowTold, Entries};

use super::columns::{Bounds, inner_of, outer_of};
use super::edges::is_tame;
use super::heights::heights_of;
use raster::grid::Grid;

// The whole cells that cover the radius, and one more.
fn reach(g: Grid, r: f64) -> usize
    ensures { (0 < result) × (result ≤ 4294967296) }
{
    numbers::cast::sat_u32(numbers::whole::ceil(r / g.cell)) as usize + 1
}

// Two words of a row.
#[derive(Clone, Copy)]
pub struct Pair {
    pub outer: u64,
    pub inner: u64,
}

// The two columns as one word.
fn packed(b: Bounds) -> u64
    requires { (b.first < 65536) × (b.last < 65536) }
    ensures { result ≡ b.first * 65536 + b.last }
{
    (b.first * 65536 + b.last) as u64
}

fn is_small(b: Bounds) -> bool
    ensures { result ≡ true → (b.first < 65536) × (b.last < 65536) }
{
    (b.first < 65536) & (b.last < 65536)
}

// The words of row q, if they can be told.
fn row(g: Grid, r: f64, s: usize, q: usize) -> Option<Pair>
    requires sides { Sides g }
    requires tame { Tame g }
    requires r_value { is_finite (mul binary64 r r) ≡ true }
    requires s_nonzero { (0 < s) × (s ≤ 65536) × (q ≤ 2 * s) }
    ensures { IfSome result (RowTold g r s q) }
{
    let h = heights_of(g, r * r, s, q)?;
    let o = outer_of(g, s, h.most)?;
    let n = inner_of(g, s, h.least);
    if is_small(o) & is_small(n) {
        return Some(Pair {
            outer: packed(o),
            inner: packed(n),
        });
    }
    None
}

fn rows(g: Grid, r: f64, s: usize, t: &mut [f64]) -> bool
    requires sides { Sides g }
    requires tame { Tame g }
    requires r_value { is_finite (mul binary64 r r) ≡ true }
    requires s_nonzero { (0 < s) × (s ≤ 65536) × (4 * s + 3 ≤ length t.old) }
    ensures { (length t.new ≡ length t.old) × (result ≡ true → Entries g r s (2 * s + 1) t.new) }
{
    for q in 0..2 * s + 1 {
        let Some(p) = row(g, r, s, q) else {
            return false;
        };
        t[2 * q + 1] = f64::from_bits(p.outer);
        t[2 * q + 2] = f64::from_bits(p.inner);
    }
    true
}

// Whether the rows could be told.
fn told(g: Grid, r: f64, s: usize, t: &mut [f64]) -> bool
    requires sides { Sides g }
    requires s_nonzero { 0 < s }
    ensures { (length t.new ≡ length t.old) × (result ≡ true → (s ≤ 65536) × (4 * s + 3 ≤ length t.new) × Entries g r s (2 * s + 1) t.new) }
{
    if s <= 65536 {
        if 4 * s + 3 <= t.len() {
            if is_tame(g) & numbers::order::is_finite(r * r) {
                return rows(g, r, s, t);
            }
        }
    }
    false
}

// The table of a grid and a radius.
pub fn fill(g: Grid, r: f64, t: &mut [f64])
    requires sides { Sides g }
    requires in_bounds { 1 ≤ length t.old }
    ensures { (length t.new ≡ length t.old) × Spanning g r t.new }
{
    let s = reach(g, r);
    if told(g, r, s, t) {
        t[0] = f64::from_bits((s + 1) as u64);
        return;
    }
    t[0] = 0.0;
}
