// Whether the root of x is below r, or reaches it, without the root: it rises with x, so that one
// comparison of x with a bound decides. The bound is looked for near r * r and checked by two roots.
ghost use Rattle.std.specs.Prelude.{◌≡◌, ◌<◌};
ghost use Rattle.std.specs.Float.Ieee.{lt, le};
ghost use Rattle.numbers.specs.Root.{root_of};
ghost use Rattle.numbers.specs.Bound.{Bounds, Square, separated, bound_from, bound_of};

use super::root::sqrt;

// A number r and, where one was found, the h that decides: the root of x is below r exactly where x is
// below h.
#[derive(Clone, Copy)]
pub struct Bound {
    pub r: f64,
    pub below: Option<f64>,
    pub ghost bounds: { Bounds r below },
}

// Whether r lies above the root of the float of pattern k, and not above that of the next one.
fn separates(k: u64, r: f64) -> bool
    requires { k < 0x7fef_ffff_ffff_ffff }
    ensures { result ≡ separated r k }
{
    let lo = sqrt(f64::from_bits(k));
    let hi = sqrt(f64::from_bits(k + 1));
    (lo < r) & (r <= hi)
}

// Looks among the eight patterns from k on.
fn search(k: u64, r: f64) -> Option<f64>
    requires { k < 0x7fe0_0000_0000_0000 }
    ensures { result ≡ bound_from r k }
{
    for i in 0..8u64 {
        if separates(k + i, r) {
            return Some(f64::from_bits(k + i + 1));
        }
    }
    None
}

fn bound_of(r: f64) -> Option<f64>
    ensures is { result ≡ bound_of r }
    ensures decides { Bounds r result }
{
    let square = r * r;
    if 0.0 < square {
        let k = f64::to_bits(square);
        if k < 4 {
            return search(0, r);
        }
        if k < 0x7fe0_0000_0000_0000 {
            return search(k - 4, r);
        }
    }
    None
}

impl Bound {
    pub fn of(r: f64) -> Bound
        ensures r { result.r ≡ r }
        ensures below { result.below ≡ bound_of r }
    {
        Bound {
            r,
            below: bound_of(r),
        }
    }

    // Whether the root of x is below r.
    pub fn root_below(self, x: f64) -> bool
        requires { Square x }
        ensures { result ≡ lt (root_of x) self.r }
    {
        match self.below {
            Some(h) => x < h,
            None => sqrt(x) < self.r,
        }
    }

    // Whether the root of x is r or more; a NaN is not.
    pub fn root_reaches(self, x: f64) -> bool
        requires { Square x }
        ensures { result ≡ le self.r (root_of x) }
    {
        match self.below {
            Some(h) => x >= h,
            None => sqrt(x) >= self.r,
        }
    }
}
