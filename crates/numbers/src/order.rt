// Rust's `max`, `min`, `clamp`, `abs`, `is_finite` and `total_cmp` of an `f64`.
ghost use Rattle.std.specs.Prelude.{◌≡◌};
ghost use Rattle.numbers.specs.Order.{max_of, min_of, clamp_of, abs_of, is_finite, rank_of, total_of};

use std::cmp::Ordering;

// std's `max` and `min` leave open which of two equals they give, as of -0.0 and 0.0; these give a.
pub fn max(a: f64, b: f64) -> f64
    ensures { result ≡ max_of a b }
{
    if a < b {
        b
    } else if a != a {
        b
    } else {
        a
    }
}

pub fn min(a: f64, b: f64) -> f64
    ensures { result ≡ min_of a b }
{
    if b < a {
        b
    } else if a != a {
        b
    } else {
        a
    }
}

// Rust panics where lo is above hi or either is a NaN, and std's asks that neither is so; here both tests
// are made all the same.
pub fn clamp(x: f64, lo: f64, hi: f64) -> f64
    ensures { result ≡ clamp_of x lo hi }
{
    if x < lo {
        if hi < lo { hi } else { lo }
    } else if hi < x {
        hi
    } else {
        x
    }
}

// The test on 0 gives -0.0 its sign up. std's has the same values; must-fail/ holds wrong bodies of this one.
pub fn abs(x: f64) -> f64
    ensures { result ≡ abs_of x }
{
    if x == 0.0 {
        0.0
    } else if x < 0.0 {
        -x
    } else {
        x
    }
}

// std's has the same values; must-fail/ holds wrong bodies of this one.
pub fn is_finite(x: f64) -> bool
    ensures { result ≡ is_finite x }
{
    let top = f64::from_bits(0x7ff0_0000_0000_0000);
    (-top < x) & (x < top)
}

// A bit pattern's place in Rust's total order.
fn rank(x: f64) -> u64
    ensures { result ≡ rank_of x }
{
    if x != x {
        return 0xfff8_0000_0000_0000;
    }
    let b = f64::to_bits(x);
    if b < 0x8000_0000_0000_0000 {
        b + 0x8000_0000_0000_0000
    } else {
        0xffff_ffff_ffff_ffff - b
    }
}

// std's asks that neither is a NaN.
pub fn total_cmp(a: f64, b: f64) -> Ordering
    ensures { result ≡ total_of a b }
{
    let p = rank(a);
    let q = rank(b);
    if p < q {
        Ordering::Less
    } else if q < p {
        Ordering::Greater
    } else {
        Ordering::Equal
    }
}
