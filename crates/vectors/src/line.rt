// A line's words: the name, then numbers in hexadecimal digits, parted by one blank.
use bits::hex::grown;

// So many numbers, of which these are the last four.
#[derive(Clone, Copy)]
pub struct Words {
    pub count: u64,
    pub a: u64,
    pub b: u64,
    pub c: u64,
    pub last: u64,
}

// None of an empty word, another character or too many digits.
fn number(word: &[u8]) -> Option<u64> {
    if word.is_empty() {
        return None;
    }
    let mut n = 0u64;
    for &c in word {
        n = grown(n, c)?;
    }
    Some(n)
}

pub fn read(numbers: &[u8]) -> Option<Words> {
    let mut w = Words {
        count: 0,
        a: 0,
        b: 0,
        c: 0,
        last: 0,
    };
    for word in numbers.split(|c| *c == b' ') {
        w = Words {
            count: w.count.wrapping_add(1),
            a: w.b,
            b: w.c,
            c: w.last,
            last: number(word)?,
        };
    }
    Some(w)
}
