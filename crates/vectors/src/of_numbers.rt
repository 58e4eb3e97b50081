// The answers of `numbers`, by a function's number (see `name`). A float is its bit pattern.
ghost use Rattle.std.specs.Prelude.{◌≡◌, ◌≤◌};
ghost use Rattle.numbers.specs.Order.{total_of};
ghost use Rattle.vectors.specs.OfNumbers.{sign_of, float_of_one, one_of, answer_of};

use super::line::Words;
use bits::{float, pattern, single_pattern};
use std::cmp::Ordering;

pub fn arguments(f: usize) -> u64
    ensures { result ≤ 3 }
{
    match f {
        2 | 3 | 16 => 2,
        4 => 3,
        _ => 1,
    }
}

// 0, 1 or 2: less, equal or greater.
#[tactic(auto, unfolding(crate::specs::OfNumbers::sign_of))]
fn order(a: f64, b: f64) -> u64
    ensures { result ≡ sign_of (total_of a b) }
{
    let o = numbers::order::total_cmp(a, b);
    match o {
        Ordering::Less => 0,
        Ordering::Equal => 1,
        Ordering::Greater => 2,
    }
}

// Of one number, the float answers.
fn float_of_one(f: usize, x: f64) -> f64
    ensures { result ≡ float_of_one f x }
{
    match f {
        5 => numbers::order::abs(x),
        7 => numbers::whole::floor(x),
        8 => numbers::whole::ceil(x),
        9 => numbers::whole::round(x),
        11 => numbers::root::sqrt(x),
        12 => numbers::circle::cos(x),
        13 => numbers::circle::sin(x),
        14 => numbers::circle::to_radians(x),
        _ => numbers::circle::to_degrees(x),
    }
}

// Of one number.
#[tactic(auto, unfolding(crate::specs::OfNumbers::one_of, crate::specs::OfNumbers::flag_of))]
fn of_one(f: usize, x: f64) -> u64
    ensures { result ≡ one_of f x }
{
    match f {
        0 => numbers::cast::sat_u64(x),
        1 => numbers::cast::sat_u32(x) as u64,
        6 => u64::from(numbers::order::is_finite(x)),
        10 => single_pattern(numbers::narrow::narrow(x)),
        _ => pattern(float_of_one(f, x)),
    }
}

#[tactic(auto, unfolding(crate::specs::OfNumbers::answer_of))]
pub fn answer(f: usize, w: Words) -> u64
    ensures { result ≡ answer_of f w.a w.b w.c }
{
    let a = float(w.a);
    let b = float(w.b);
    let c = float(w.c);
    match f {
        2 => pattern(numbers::order::max(b, c)),
        3 => pattern(numbers::order::min(b, c)),
        4 => pattern(numbers::order::clamp(a, b, c)),
        16 => order(b, c),
        _ => of_one(f, c),
    }
}
