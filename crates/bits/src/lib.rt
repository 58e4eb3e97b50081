// Floats and their bit patterns, with one pattern for every NaN, and numbers in hexadecimal digits, as stored
// answers have them.
#![tactic(auto)]

pub mod hex;

ghost use Rattle.std.specs.Prelude.{◌≡◌};
ghost use Rattle.std.specs.Float.{binary32, binary64};
ghost use Rattle.std.specs.Float.Ieee.{of_bits, to_bits};

pub fn float(bits: u64) -> f64
    ensures { result ≡ of_bits binary64 bits }
{
    if 0x7ff0_0000_0000_0000 < bits % 0x8000_0000_0000_0000 {
        0.0 / 0.0
    } else {
        f64::from_bits(bits)
    }
}

pub fn pattern(x: f64) -> u64
    ensures { result ≡ to_bits binary64 x }
{
    if x == x {
        f64::to_bits(x)
    } else {
        0x7ff8_0000_0000_0000
    }
}

pub fn single_pattern(x: f32) -> u64
    ensures { result ≡ to_bits binary32 x }
{
    if x == x {
        f32::to_bits(x) as u64
    } else {
        0x7fc0_0000
    }
}
