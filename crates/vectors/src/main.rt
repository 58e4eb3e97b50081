// Replays stored answers of the Rust. A line of standard input is a function's name, its arguments and
// the answer, parted by a blank; numbers are in hexadecimal digits, a float its bit pattern. Names each
// line that differs or that cannot be read, and at the end says how many lines of each function agreed.
#![tactic(auto)]

mod line;
mod name;
mod of_numbers;

ghost use Rattle.std.specs.Prelude.{◌≡◌, ◌<◌, ◌≤◌, ◌==◌, IfOk, IfSome};
ghost use Rattle.vectors.specs.OfNumbers.{answer_of};

use line::Words;
use name::{COUNT, NAMES};
use std::io;
use std::io::Read;

// A longer line is bad.
const ROOM: usize = 128;

// The lines of a function that can be read, and those that agreed.
#[derive(Clone, Copy)]
struct Tally {
    asked: u64,
    agreed: u64,
}

// The place in the input: how many bytes of a line are there, and the line's number from 1.
#[derive(Clone, Copy)]
struct Place {
    length: usize,
    number: u64,
    ghost fits: { length ≤ 128 },
}

// Whether the last word is the answer to the words before it.
fn agrees(f: usize, w: Words) -> bool
    ensures { result ≡ (w.last == answer_of f w.a w.b w.c) }
{
    w.last == of_numbers::answer(f, w)
}

// The function's number and the words after its name. None of a line that cannot be read.
fn call(line: &[u8]) -> Option<(usize, Words)>
    ensures { IfSome result (λ r. r.0 < 17) }
{
    if ROOM <= line.len() {
        return None;
    }
    let stop = line.iter().position(|c| *c == b' ')?;
    let f = name::find(&line[..stop])?;
    let w = line::read(&line[stop + 1..])?;
    if w.count == of_numbers::arguments(f) + 1 {
        Some((f, w))
    } else {
        None
    }
}

fn judge(
    rt: &impl Print,
    line: &[u8],
    number: u64,
    tallies: &mut [Tally; COUNT],
) -> io::Result<()> {
    let Some((f, w)) = call(line) else {
        return println!(rt; "line {number} bad");
    };
    let t = &mut tallies[f];
    t.asked = t.asked.wrapping_add(1);
    if agrees(f, w) {
        t.agreed = t.agreed.wrapping_add(1);
        return Ok(());
    }
    println!(rt; "line {number} differs")
}

// One byte more of the input. A line that fills its room is too long, and bad.
fn byte(
    rt: &impl Print,
    c: u8,
    s: &mut [u8; ROOM],
    at: Place,
    tallies: &mut [Tally; COUNT],
) -> io::Result<Place> {
    let Place { length, number } = at;
    if c == b'\n' {
        judge(rt, &s[..length], number, tallies)?;
        return Ok(Place {
            length: 0,
            number: number.wrapping_add(1),
        });
    }
    if length < ROOM {
        s[length] = c;
        return Ok(Place {
            length: length + 1,
            number,
        });
    }
    Ok(at)
}

// Reads once; None at the end of the input. Keeping the loop out of it keeps the buffer out of the loop's proof.
fn some(
    rt: &impl Print,
    input: &mut impl Read,
    s: &mut [u8; ROOM],
    start: Place,
    tallies: &mut [Tally; COUNT],
) -> io::Result<Option<Place>> {
    let mut read = [0u8; 4096];
    let n = input.read(&mut read)?;
    if n == 0 {
        return Ok(None);
    }
    let mut at = start;
    for &c in &read[..n] {
        at = byte(rt, c, s, at, tallies)?;
    }
    Ok(Some(at))
}

// What stands behind the last end of a line.
fn rest(
    rt: &impl Print,
    s: &[u8; ROOM],
    at: Place,
    tallies: &mut [Tally; COUNT],
) -> io::Result<()> {
    let Place { length, number } = at;
    if length == 0 {
        return Ok(());
    }
    judge(rt, &s[..length], number, tallies)
}

// The turns are counted, since nothing says that the input ends.
fn replay(rt: &(impl Input + Print), tallies: &mut [Tally; COUNT]) -> io::Result<()> {
    let mut input = rt.reader();
    let mut s = [0u8; ROOM];
    let mut at = Place {
        length: 0,
        number: 1,
    };
    for _ in 0..u64::MAX {
        let Some(next) = some(rt, &mut input, &mut s, at, tallies)? else {
            break;
        };
        at = next;
    }
    rest(rt, &s, at, tallies)
}

fn report(rt: &impl Print, tallies: &[Tally; COUNT]) -> io::Result<()> {
    for (name, t) in NAMES.iter().zip(tallies) {
        let Tally { asked, agreed } = *t;
        println!(rt; "{name:<12}{agreed} of {asked}")?;
    }
    Ok(())
}

fn main(rt: HostRuntime) -> io::Result<()> {
    let mut tallies = [Tally {
        asked: 0,
        agreed: 0,
    }; COUNT];
    replay(&rt, &mut tallies)?;
    report(&rt, &tallies)
}
