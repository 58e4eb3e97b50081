// Numbers in hexadecimal digits, as stored answers have them.
ghost use Rattle.std.specs.Prelude.{◌≡◌};
ghost use Rattle.bits.specs.Hex.{digit_of, grown};

fn digit(c: u8) -> Option<u64>
    ensures { result ≡ digit_of c }
{
    match c {
        b'0'..=b'9' => Some(u64::from(c - b'0')),
        b'a'..=b'f' => Some(u64::from(c - b'a') + 10),
        _ => None,
    }
}

// The number n with one digit more. None where c is no digit or the number would have too many.
pub fn grown(n: u64, c: u8) -> Option<u64>
    ensures { result ≡ grown n c }
{
    let d = digit(c)?;
    if n <= 0xfff_ffff_ffff_ffff {
        Some(n * 16 + d)
    } else {
        None
    }
}
