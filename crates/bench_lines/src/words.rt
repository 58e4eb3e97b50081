// What has been read of a line: a word of small letters, then numbers, each after one tab. A byte at a
// time, so that a line of any length takes no room.
#![tactic(auto, unfolding(crate::specs::Words::next_field, crate::specs::Words::letter_of, crate::specs::Words::later_digit, crate::specs::Words::digit_of, crate::specs::Words::step_of))]

ghost use Rattle.std.specs.Prelude.{◌≡◌};
ghost use Rattle.bench_lines.specs.Words.{no_words, next_field, letter_of, first_digit, later_digit, digit_of, step_of};

#[derive(Clone, Copy)]
pub struct Words {
    // Nothing yet of the present field.
    pub empty: bool,
    // How many numbers, the present one included.
    pub count: usize,
    // The word's letters, eight bits each.
    pub word: usize,
    // The last five numbers.
    pub a: usize,
    pub b: usize,
    pub c: usize,
    pub d: usize,
    pub last: usize,
}

pub fn begin() -> Words
    ensures { result ≡ no_words }
{
    Words {
        empty: true,
        count: 0,
        word: 0,
        a: 0,
        b: 0,
        c: 0,
        d: 0,
        last: 0,
    }
}

// A tab: no field is empty, and none has more than five numbers.
fn next_field(w: Words) -> Option<Words>
    ensures { result ≡ next_field w }
{
    if w.empty || 4 < w.count {
        return None;
    }
    Some(Words {
        empty: true,
        count: w.count + 1,
        a: w.b,
        b: w.c,
        c: w.d,
        d: w.last,
        last: 0,
        ..w
    })
}

// Small letters alone, so that no two words of up to four have one number.
fn letter(w: Words, c: u8) -> Option<Words>
    ensures { result ≡ letter_of c w }
{
    if !c.is_ascii_lowercase() || 0xff_ffff < w.word {
        return None;
    }
    Some(Words {
        empty: false,
        word: w.word * 256 + c as usize,
        ..w
    })
}

fn first_digit(w: Words, n: usize) -> Words
    ensures { result ≡ first_digit n w }
{
    Words {
        empty: false,
        last: n,
        ..w
    }
}

// A zero is not followed by a digit, and no number is above 1,000.
fn later_digit(w: Words, n: usize) -> Option<Words>
    ensures { result ≡ later_digit n w }
{
    if w.last == 0 || 1000 < w.last {
        return None;
    }
    let last = w.last * 10 + n % 10;
    if 1000 < last {
        return None;
    }
    Some(Words { last, ..w })
}

fn digit(w: Words, c: u8) -> Option<Words>
    ensures { result ≡ digit_of c w }
{
    if !c.is_ascii_digit() {
        return None;
    }
    let n = (c - b'0') as usize;
    if w.empty {
        return Some(first_digit(w, n));
    }
    later_digit(w, n)
}

// One byte more. A bad line, which says nothing, stays bad.
pub fn step(words: Option<Words>, c: u8) -> Option<Words>
    ensures { result ≡ step_of c words }
{
    let w = words?;
    if c == b'\t' {
        return next_field(w);
    }
    if w.count == 0 {
        return letter(w, c);
    }
    digit(w, c)
}
