// The functions of `distance`.
ghost use Rattle.std.specs.Prelude.{◌≡◌, ℕ, false, ◌+◌, ◌*◌, ◌≤◌, ◌<◌, length, ltb};
ghost use Rattle.std.specs.Float.Ieee as Ieee;
ghost use Rattle.distance.specs.Least.{MapSides, far};
ghost use Rattle.distance.specs.Nearest.{transform_of};
ghost use Rattle.distance.specs.Rooted.{distances_of};
ghost use Rattle.distance.specs.Limits.{scaled_of, passes_of};
ghost use Rattle.abi.specs.Distance.{threshold};

use distance::limits::{Limit, Threshold};

#[unsafe(no_mangle)]
pub extern "C" fn distance_transform(marks: &[u8], mark: u8, nx: usize, ny: usize, work: &mut [u32])
    requires map_sides { MapSides nx ny }
    requires nx_in_bounds { ny * nx ≤ length marks.now }
    requires nx_in_bounds_2 { ny * nx + 3 * nx ≤ length work.old }
    ensures { work.new ≡ transform_of mark marks.now nx ny work.old }
{
    distance::transform(marks, mark, nx, ny, work);
}

#[unsafe(no_mangle)]
pub extern "C" fn distance_distances(squares: &[u32], n: usize, out: &mut [f64])
    requires n_in_bounds { n ≤ length squares.now }
    requires n_in_bounds_2 { n ≤ length out.old }
    ensures { out.new ≡ distances_of n squares.now out.old }
{
    distance::roots::distances(squares, n, out);
}

fn threshold(scaled: bool, scale: f64, strict: bool, x: f64) -> Threshold
    ensures { result ≡ threshold scaled scale strict x }
{
    Threshold {
        scale: if scaled { Some(scale) } else { None },
        strict,
        x,
    }
}

// The first square that fails a bound, FAR where none is told.
#[unsafe(no_mangle)]
pub extern "C" fn distance_limit(scaled: bool, scale: f64, strict: bool, x: f64) -> u32
    ensures { result < far → (d : ℕ) → d ≤ far → passes_of (threshold scaled scale strict x) d ≡ ltb d result }
{
    let l = Limit::of(threshold(scaled, scale, strict, x));
    match l.below {
        Some(below) => below,
        None => distance::FAR,
    }
}

#[unsafe(no_mangle)]
pub extern "C" fn distance_within(
    scaled: bool,
    scale: f64,
    strict: bool,
    x: f64,
    square: u32,
) -> bool
    ensures { result ≡ passes_of (threshold scaled scale strict x) square }
{
    Limit::of(threshold(scaled, scale, strict, x)).is_within(square)
}

#[unsafe(no_mangle)]
pub extern "C" fn distance_beyond(scaled: bool, scale: f64, x: f64, square: u32) -> bool
    ensures { let b = threshold scaled scale false x in result ≡ Ieee.lt x (scaled_of b.scale square) }
{
    Limit::of(threshold(scaled, scale, false, x)).beyond(square)
}
