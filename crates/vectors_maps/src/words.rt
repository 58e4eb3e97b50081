// A line as it is read: a word of small letters, then numbers in hexadecimal digits, each after one blank.
// The word stands in the first place, eight bits a letter, and the numbers in the places after it.
ghost use Rattle.std.specs.Prelude.{◌<◌};

use bits::hex::grown;

// The present field, and whether there is nothing of it yet.
#[derive(Clone, Copy)]
pub struct Field {
    pub at: usize,
    pub empty: bool,
    ghost in_line: { at < 64 },
}

#[derive(Clone, Copy)]
pub struct Line {
    // None where a field is empty, too long or has another character, or there are too many.
    pub field: Option<Field>,
    // The line's number, from 1.
    pub number: u64,
}

pub fn begin(number: u64) -> Line {
    Line {
        field: Some(Field { at: 0, empty: true }),
        number,
    }
}

fn letter(word: u64, c: u8) -> Option<u64> {
    if c.is_ascii_lowercase() {
        Some(word.checked_mul(256)? + u64::from(c))
    } else {
        None
    }
}

// A blank ends a field and begins the next.
fn blank(f: Field, s: &mut [u64; 64]) -> Option<Field> {
    let Field { at, empty } = f;
    if empty || at == 63 {
        return None;
    }
    s[at + 1] = 0;
    Some(Field {
        at: at + 1,
        empty: true,
    })
}

// One character more of the line.
pub fn step(f: Field, s: &mut [u64; 64], c: u8) -> Option<Field> {
    if c == b' ' {
        return blank(f, s);
    }
    let at = f.at;
    s[at] = if at == 0 {
        letter(s[at], c)?
    } else {
        grown(s[at], c)?
    };
    Some(Field { at, empty: false })
}

// Whether anything of the line is read.
pub fn is_begun(l: Line) -> bool {
    match l.field {
        Some(f) => (0 < f.at) | !f.empty,
        None => true,
    }
}
