// Fingerprints of what is compared with stored answers: h becomes 48271 h + v, by the remainder of 2^31 - 1, for each value in turn.
#![tactic(auto)]

ghost use Rattle.std.specs.Prelude.{◌≡◌, ℕ, cond};
ghost use Rattle.std.specs.Float.{binary64};
ghost use Rattle.std.specs.Float.Ieee.{to_bits};
ghost use Rattle.prints.specs.Print.{mixed, printed};

use bits::pattern;

pub fn mix(h: u64, v: u64) -> u64
    ensures { result ≡ mixed h v }
{
    (h % 2147483647 * 48271 + v % 2147483647) % 2147483647
}

// What is printed of a value: a map's byte, a log's number or a square, a count, a flag, a fingerprint, a float's bit pattern.
pub trait Printed: Copy {
    ghost number: { Self → ℕ };

    fn number(self) -> u64
        ensures { result ≡ number self };
}

impl Printed for u8 {
    ghost number = { λ n. n };

    fn number(self) -> u64 {
        u64::from(self)
    }
}

impl Printed for u32 {
    ghost number = { λ n. n };

    fn number(self) -> u64 {
        u64::from(self)
    }
}

impl Printed for u64 {
    ghost number = { λ n. n };

    fn number(self) -> u64 {
        self
    }
}

impl Printed for usize {
    ghost number = { λ n. n };

    fn number(self) -> u64 {
        self as u64
    }
}

// 1 is yes.
impl Printed for bool {
    ghost number = { λ b. cond b 1 0 };

    fn number(self) -> u64 {
        u64::from(self)
    }
}

impl Printed for f64 {
    ghost number = { to_bits binary64 };

    fn number(self) -> u64 {
        pattern(self)
    }
}

pub fn print<T: Printed>(s: &[T]) -> u64
    ensures { result ≡ printed T.number 1 s.now }
{
    let mut h = 1u64;
    for &v in s {
        h = mix(h, v.number());
    }
    h
}
