// The bench's answers on standard output, for the bytes of its input as they come.
#![tactic(auto)]

ghost use Rattle.std.specs.Prelude.{◌≡◌, ℕ, List, IfOk, OnErr};
ghost use Rattle.bench_lines.specs.Obey.{Fit, no_map};
ghost use Rattle.bench_lines.specs.Reader.{Heard, silent, line_heard, byte_heard, heard_of, end_heard};
ghost use Rattle.bench_talk.specs.Hears.{Hears, Left, LeftWithin, answer_to};

use bench_lines::obey::{Answer, Bench, Done};
use bench_lines::reader::line_end;
use bench_lines::words::{Words, begin, step};
use std::io;

// `Fit` joins its bench with the lent map and log: a struct of all three would hold two `&mut` slices, and each contract
// would name them through it.
#[derive(Clone, Copy)]
pub struct Talk {
    pub bench: Bench,
    pub words: Option<Words>,
    // There is a byte of the present line.
    pub begun: bool,
    // The present line's number, from 1.
    pub number: u64,
    // A bad line has been named. What was heard before it stays, so this is no Option of the rest.
    pub ended: bool,
}

pub fn start() -> Talk
    ensures bench_value { result.bench ≡ no_map }
    ensures by_index { (m l : List ℕ) → Hears result m l (silent m l) }
{
    Talk {
        bench: bench_lines::obey::start(),
        words: Some(begin()),
        begun: false,
        number: 1,
        ended: false,
    }
}

fn say(rt: &impl Print, a: Option<Answer>, line: u64) -> io::Result<()> {
    match a {
        Some(answer) => println!(rt; "{answer}"),
        None => println!(rt; "bad {line}"),
    }
}

// The line ends here: the talk after it, and the answer that is to be written.
fn line(t: Talk, map: &mut [u8], log: &mut [u32]) -> (Talk, Option<Answer>)
    requires { Fit t.bench map.old log.old }
    ensures fit { Fit result.0.bench map.new log.new }
    ensures hears { (h : Heard) → Hears t map.old log.old h → Hears result.0 map.new log.new (line_heard h) }
    ensures answer { (h : Heard) → Hears t map.old log.old h → result.1 ≡ answer_to h }
{
    let Done { bench, answer } = line_end(t.bench, t.words, map, log);
    let talk = Talk {
        bench,
        words: Some(begin()),
        begun: false,
        number: t.number.wrapping_add(1),
        ended: answer.is_none(),
    };
    (talk, answer)
}

// The line ends here, and its answer is written.
fn answered(rt: &impl Print, t: Talk, map: &mut [u8], log: &mut [u32]) -> io::Result<Talk>
    requires { Fit t.bench map.old log.old }
    ensures fit { IfOk result (λ r. Fit r.bench map.new log.new) }
    ensures hears { (h : Heard) → Hears t map.old log.old h → IfOk result (λ r. Hears r map.new log.new (line_heard h)) }
    ensures left { (h : Heard) → Hears t map.old log.old h → OnErr result (Left map.new log.new (line_heard h)) }
{
    let (after, answer) = line(t, map, log);
    say(rt, answer, t.number)?;
    Ok(after)
}

// One byte more. After a bad line nothing is said. Where an answer cannot be written, the byte has been heard.
pub fn byte(rt: &impl Print, t: Talk, c: u8, map: &mut [u8], log: &mut [u32]) -> io::Result<Talk>
    requires { Fit t.bench map.old log.old }
    ensures fit { IfOk result (λ r. Fit r.bench map.new log.new) }
    ensures hears { (h : Heard) → Hears t map.old log.old h → IfOk result (λ r. Hears r map.new log.new (byte_heard c h)) }
    ensures left { (h : Heard) → Hears t map.old log.old h → OnErr result (Left map.new log.new (byte_heard c h)) }
{
    if t.ended {
        return Ok(t);
    }
    if c == b'\n' {
        return answered(rt, t, map, log);
    }
    Ok(Talk {
        words: step(t.words, c),
        begun: true,
        ..t
    })
}

// Where an answer cannot be written, the bytes up to it have been heard.
pub fn bytes(
    rt: &impl Print,
    read: &[u8],
    start: Talk,
    map: &mut [u8],
    log: &mut [u32],
) -> io::Result<Talk>
    requires { Fit start.bench map.old log.old }
    ensures fit { IfOk result (λ r. Fit r.bench map.new log.new) }
    ensures hears { (h : Heard) → Hears start map.old log.old h → IfOk result (λ r. Hears r map.new log.new (heard_of read.now h)) }
    ensures left { (h : Heard) → Hears start map.old log.old h → OnErr result (LeftWithin read.now map.new log.new h) }
{
    let mut t = start;
    for &c in read {
        t = byte(rt, t, c, map, log)?;
    }
    Ok(t)
}

// The input ends here: what is left is a line where it has begun.
pub fn finish(rt: &impl Print, t: Talk, map: &mut [u8], log: &mut [u32]) -> io::Result<Talk>
    requires { Fit t.bench map.old log.old }
    ensures hears { (h : Heard) → Hears t map.old log.old h → IfOk result (λ r. Hears r map.new log.new (end_heard h)) }
    ensures left { (h : Heard) → Hears t map.old log.old h → OnErr result (Left map.new log.new (end_heard h)) }
{
    if t.ended {
        return Ok(t);
    }
    if t.begun {
        return answered(rt, t, map, log);
    }
    Ok(t)
}
