// Replays stored answers of the Rust on maps. A line of standard input is a word (crescent, fill, contact or
// squares), its arguments and the answer, parted by a blank; numbers are in hexadecimal digits, a float its
// bit pattern. Names each line that differs or that cannot be read or is out of range, and at the end says
// how many lines of each word agreed.
#![tactic(auto)]

mod contact;
mod crescent;
mod fill;
mod maps;
mod print;
mod squares;
mod words;

ghost use Rattle.std.specs.Prelude.{◌<◌};
ghost use Rattle.vectors_maps.specs.Maps.{Small};

use maps::at_most;
use std::io;
use std::io::Read;
use words::{Field, Line};

#[derive(Clone, Copy)]
enum Word {
    Crescent,
    Fill,
    Contact,
    Squares,
}

// The lines of a word that can be read, and those that agreed.
#[derive(Clone, Copy)]
struct Tally {
    asked: u64,
    agreed: u64,
}

// A word's letters have eight bits each.
fn word_of(letters: u64) -> Option<Word> {
    match letters {
        0x6372_6573_6365_6e74 => Some(Word::Crescent),
        0x6669_6c6c => Some(Word::Fill),
        0x63_6f6e_7461_6374 => Some(Word::Contact),
        0x73_7175_6172_6573 => Some(Word::Squares),
        _ => None,
    }
}

fn by_word(word: Word, s: &[u64; 64], last: usize, nx: usize, ny: usize) -> Option<bool>
    requires { Small nx ny }
{
    match word {
        Word::Crescent => crescent::judged(s, last, nx, ny),
        Word::Fill => fill::judged(s, last, nx, ny),
        Word::Contact => contact::judged(s, last, nx, ny),
        Word::Squares => squares::judged(s, last, nx, ny),
    }
}

// A line's word and whether the answer is that of the definitions; None of a line that cannot be read or is out
// of range. The third number is the columns, the fourth the rows.
fn of_line(field: Option<Field>, s: &[u64; 64]) -> Option<(Word, bool)> {
    let Field { at, empty } = field?;
    if empty {
        return None;
    }
    let word = word_of(s[0])?;
    let nx = at_most(s[3], 32)?;
    let ny = at_most(s[4], 32)?;
    if (nx == 0) | (ny == 0) {
        return None;
    }
    Some((word, by_word(word, s, at, nx, ny)?))
}

fn judge(rt: &impl Print, l: Line, s: &[u64; 64], tallies: &mut [Tally; 4]) -> io::Result<()> {
    let Line { field, number } = l;
    let Some((word, agrees)) = of_line(field, s) else {
        return println!(rt; "line {number} bad");
    };
    let t = &mut tallies[word as usize];
    t.asked = t.asked.wrapping_add(1);
    if agrees {
        t.agreed = t.agreed.wrapping_add(1);
        return Ok(());
    }
    println!(rt; "line {number} differs")
}

// One byte more of the input.
fn byte(
    rt: &impl Print,
    c: u8,
    s: &mut [u64; 64],
    l: Line,
    tallies: &mut [Tally; 4],
) -> io::Result<Line> {
    let Line { field, number } = l;
    if c == b'\n' {
        judge(rt, l, s, tallies)?;
        s[0] = 0;
        return Ok(words::begin(number.wrapping_add(1)));
    }
    let field = match field {
        Some(f) => words::step(f, s, c),
        None => None,
    };
    Ok(Line { field, number })
}

// Reads once; None at the end of the input. Keeping the loop out of it keeps the buffer out of the loop's proof.
fn some(
    rt: &impl Print,
    input: &mut impl Read,
    s: &mut [u64; 64],
    start: Line,
    tallies: &mut [Tally; 4],
) -> io::Result<Option<Line>> {
    let mut read = [0u8; 4096];
    let n = input.read(&mut read)?;
    if n == 0 {
        return Ok(None);
    }
    let mut l = start;
    for &c in &read[..n] {
        l = byte(rt, c, s, l, tallies)?;
    }
    Ok(Some(l))
}

// Reads to the end. The turns are counted, since nothing says that the input ends.
fn replay(rt: &(impl Input + Print), tallies: &mut [Tally; 4]) -> io::Result<()> {
    let mut input = rt.reader();
    let mut s = [0u64; 64];
    let mut l = words::begin(1);
    for _ in 0..u64::MAX {
        let Some(next) = some(rt, &mut input, &mut s, l, tallies)? else {
            break;
        };
        l = next;
    }
    if words::is_begun(l) {
        judge(rt, l, &s, tallies)?;
    }
    Ok(())
}

fn main(rt: HostRuntime) -> io::Result<()> {
    let mut tallies = [Tally {
        asked: 0,
        agreed: 0,
    }; 4];
    replay(&rt, &mut tallies)?;
    for (name, t) in ["crescent", "fill", "contact", "squares"]
        .iter()
        .zip(&tallies)
    {
        let Tally { asked, agreed } = *t;
        println!(&rt; "{name:<10}{agreed} of {asked}")?;
    }
    Ok(())
}
