// The squared half-widths of a disk in a row, least and greatest over all centres of a row of cells.
ghost use Rattle.std.specs.Prelude.{◌≡◌, true, IfSome, ◌-◌, ◌*◌, ◌≤◌, ◌<◌};
ghost use Rattle.numbers.specs.Order.{is_finite};
ghost use Rattle.raster.specs.Grid.{Sides};
ghost use Rattle.spans.specs.Ends.{Small, Big, High, joined_of, HighTo, Tame};

use super::edges::{below, beyond};
use numbers::order::is_finite;
use raster::disk::row_y;
use raster::grid::Grid;

// Between these the heights lie.
#[derive(Clone, Copy)]
pub struct Heights {
    pub least: f64,
    pub most: f64,
}

// The least square of a number from a to b.
fn small_of(a: f64, b: f64) -> f64
    requires { (is_finite a ≡ true) × (is_finite b ≡ true) }
    ensures { Small a b result }
{
    if 0.0 <= a {
        return a * a;
    }
    if b <= 0.0 {
        return b * b;
    }
    0.0
}

// The greatest.
fn big_of(a: f64, b: f64) -> f64
    requires { (is_finite a ≡ true) × (is_finite b ≡ true) }
    ensures { Big a b result }
{
    let p = a * a;
    let q = b * b;
    if p <= q {
        return q;
    }
    p
}

// Of the row y, for centres from lo to hi; none where they are no numbers.
fn height(r2: f64, y: f64, lo: f64, hi: f64) -> Option<Heights>
    requires r2_value { is_finite r2 ≡ true }
    requires lo_value { (is_finite lo ≡ true) × (is_finite hi ≡ true) }
    ensures { IfSome result (High r2 y lo hi) }
{
    let a = y - hi;
    let b = y - lo;
    if is_finite(y) & (is_finite(a) & is_finite(b)) {
        return Some(Heights {
            least: r2 - big_of(a, b),
            most: r2 - small_of(a, b),
        });
    }
    None
}

fn joined(h: Heights, k: Heights) -> Heights
    ensures { result ≡ joined_of h k }
{
    Heights {
        least: numbers::order::min(h.least, k.least),
        most: numbers::order::max(h.most, k.most),
    }
}

// Of row q - s above the centre's, for centres in all rows with room.
pub fn heights_of(g: Grid, r2: f64, s: usize, q: usize) -> Option<Heights>
    requires sides { Sides g }
    requires tame { Tame g }
    requires r2_value { is_finite r2 ≡ true }
    requires s_nonzero { (0 < s) × (s ≤ 65536) × (q ≤ 2 * s) }
    ensures { IfSome result (HighTo g r2 s q (g.ny - s)) }
{
    let mut h = Heights {
        least: r2,
        most: -1.0,
    };
    for j in s..g.ny.saturating_sub(s) {
        let lo = below(g.origin.y, g.cell, j);
        let hi = beyond(g.origin.y, g.cell, j);
        h = joined(h, height(r2, row_y(g, j + q - s), lo, hi)?);
    }
    Some(h)
}
