// The functions of `numbers`.
ghost use Rattle.std.specs.Prelude.{◌≡◌};
ghost use Rattle.std.specs.Float.Ieee as Ieee;
ghost use Rattle.numbers.specs.Order.{max_of, min_of, clamp_of, abs_of, is_finite, total_of};
ghost use Rattle.numbers.specs.Whole.{floor_of, ceil_of, round_of};
ghost use Rattle.numbers.specs.Narrow.{narrow_of};
ghost use Rattle.numbers.specs.Root.{root_of};
ghost use Rattle.numbers.specs.Circle.{cos_of, sin_of, radians_of, degrees_of};
ghost use Rattle.abi.specs.Numbers.{sign_of};

use std::cmp::Ordering;

#[unsafe(no_mangle)]
pub extern "C" fn numbers_sat_u64(x: f64) -> u64
    ensures { result ≡ Ieee.to_unsigned 64 x }
{
    numbers::cast::sat_u64(x)
}

#[unsafe(no_mangle)]
pub extern "C" fn numbers_sat_u32(x: f64) -> u32
    ensures { result ≡ Ieee.to_unsigned 32 x }
{
    numbers::cast::sat_u32(x)
}

#[unsafe(no_mangle)]
pub extern "C" fn numbers_max(a: f64, b: f64) -> f64
    ensures { result ≡ max_of a b }
{
    numbers::order::max(a, b)
}

#[unsafe(no_mangle)]
pub extern "C" fn numbers_min(a: f64, b: f64) -> f64
    ensures { result ≡ min_of a b }
{
    numbers::order::min(a, b)
}

#[unsafe(no_mangle)]
pub extern "C" fn numbers_clamp(x: f64, lo: f64, hi: f64) -> f64
    ensures { result ≡ clamp_of x lo hi }
{
    numbers::order::clamp(x, lo, hi)
}

#[unsafe(no_mangle)]
pub extern "C" fn numbers_abs(x: f64) -> f64
    ensures { result ≡ abs_of x }
{
    numbers::order::abs(x)
}

#[unsafe(no_mangle)]
pub extern "C" fn numbers_is_finite(x: f64) -> bool
    ensures { result ≡ is_finite x }
{
    numbers::order::is_finite(x)
}

#[unsafe(no_mangle)]
pub extern "C" fn numbers_floor(x: f64) -> f64
    ensures { result ≡ floor_of x }
{
    numbers::whole::floor(x)
}

#[unsafe(no_mangle)]
pub extern "C" fn numbers_ceil(x: f64) -> f64
    ensures { result ≡ ceil_of x }
{
    numbers::whole::ceil(x)
}

#[unsafe(no_mangle)]
pub extern "C" fn numbers_round(x: f64) -> f64
    ensures { result ≡ round_of x }
{
    numbers::whole::round(x)
}

#[unsafe(no_mangle)]
pub extern "C" fn numbers_narrow(x: f64) -> f32
    ensures { result ≡ narrow_of x }
{
    numbers::narrow::narrow(x)
}

#[unsafe(no_mangle)]
pub extern "C" fn numbers_sqrt(x: f64) -> f64
    ensures { result ≡ root_of x }
{
    numbers::root::sqrt(x)
}

#[unsafe(no_mangle)]
pub extern "C" fn numbers_cos(x: f64) -> f64
    ensures { result ≡ cos_of x }
{
    numbers::circle::cos(x)
}

#[unsafe(no_mangle)]
pub extern "C" fn numbers_sin(x: f64) -> f64
    ensures { result ≡ sin_of x }
{
    numbers::circle::sin(x)
}

#[unsafe(no_mangle)]
pub extern "C" fn numbers_to_radians(x: f64) -> f64
    ensures { result ≡ radians_of x }
{
    numbers::circle::to_radians(x)
}

#[unsafe(no_mangle)]
pub extern "C" fn numbers_to_degrees(x: f64) -> f64
    ensures { result ≡ degrees_of x }
{
    numbers::circle::to_degrees(x)
}

// 0, 1 or 2: less, equal or greater.
#[unsafe(no_mangle)]
pub extern "C" fn numbers_total_cmp(a: f64, b: f64) -> u32
    ensures { result ≡ sign_of (total_of a b) }
{
    let o = numbers::order::total_cmp(a, b);
    match o {
        Ordering::Less => 0,
        Ordering::Equal => 1,
        Ordering::Greater => 2,
    }
}
