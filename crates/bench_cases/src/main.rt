// The bench on many inputs, which standard input has one behind the other: a byte 30, a name up to a line
// feed, then what the bench is to read. Each case prints its name and then what the bench answers; `stdout`
// has the answers as worked out by hand, so a wrong one fails the check.
#![tactic(auto)]

ghost use Rattle.std.specs.Prelude.{◌≡◌, IfOk, OnOk};
ghost use Rattle.bench_lines.specs.Obey.{Fit, no_map};

use bench_talk::Talk;
use std::io;
use std::io::Read;

// What the next byte belongs to.
#[derive(Clone, Copy, PartialEq, Eq)]
enum Place {
    // What stands before the first case.
    Before,
    Name,
    Input,
}

#[derive(Clone, Copy)]
struct Cases {
    talk: Talk,
    place: Place,
}

// What is left of a case is a line where it has begun.
fn finish(rt: &impl Print, c: Cases, map: &mut [u8], log: &mut [u32]) -> io::Result<()>
    requires { Fit c.talk.bench map.old log.old }
    ensures { OnOk result (Fit no_map map.new log.new) }
{
    if c.place != Place::Before {
        bench_talk::finish(rt, c.talk, map, log)?;
    }
    Ok(())
}

// A new bench.
fn next(rt: &impl Print, c: Cases, map: &mut [u8], log: &mut [u32]) -> io::Result<Cases>
    requires { Fit c.talk.bench map.old log.old }
    ensures { IfOk result (λ r. Fit r.talk.bench map.new log.new) }
{
    finish(rt, c, map, log)?;
    print!(rt; "-- ")?;
    Ok(Cases {
        talk: bench_talk::start(),
        place: Place::Name,
    })
}

// A byte of a name.
fn name(rt: &impl Print, c: Cases, b: u8) -> io::Result<Cases>
    ensures { IfOk result (λ r. r.talk ≡ c.talk) }
{
    rt.write_all(&[b])?;
    let place = if b == b'\n' {
        Place::Input
    } else {
        Place::Name
    };
    Ok(Cases { place, ..c })
}

fn byte(rt: &impl Print, c: Cases, b: u8, map: &mut [u8], log: &mut [u32]) -> io::Result<Cases>
    requires { Fit c.talk.bench map.old log.old }
    ensures { IfOk result (λ r. Fit r.talk.bench map.new log.new) }
{
    if b == 30 {
        return next(rt, c, map, log);
    }
    if c.place == Place::Name {
        return name(rt, c, b);
    }
    Ok(Cases {
        talk: bench_talk::byte(rt, c.talk, b, map, log)?,
        ..c
    })
}

fn bytes(
    rt: &impl Print,
    read: &[u8],
    start: Cases,
    map: &mut [u8],
    log: &mut [u32],
) -> io::Result<Cases>
    requires { Fit start.talk.bench map.old log.old }
    ensures { IfOk result (λ r. Fit r.talk.bench map.new log.new) }
{
    let mut c = start;
    for &b in read {
        c = byte(rt, c, b, map, log)?;
    }
    Ok(c)
}

// As in `bench`, which says why it is not one function, but no bad line ends the cases.
fn listen(
    rt: &(impl Input + Print),
    start: Cases,
    map: &mut [u8],
    log: &mut [u32],
) -> io::Result<Cases>
    requires { Fit start.talk.bench map.old log.old }
    ensures { IfOk result (λ r. Fit r.talk.bench map.new log.new) }
{
    let mut input = rt.reader();
    let mut buffer = [0u8; 4096];
    let mut c = start;
    for _ in 0..u64::MAX {
        let n = input.read(&mut buffer)?;
        if n == 0 {
            break;
        }
        c = bytes(rt, &buffer[..n], c, map, log)?;
    }
    Ok(c)
}

fn main(rt: HostRuntime) -> io::Result<()> {
    let mut map = [0u8; 4096];
    let mut log = [0u32; 4096];
    let start = Cases {
        talk: bench_talk::start(),
        place: Place::Before,
    };
    let c = listen(&rt, start, &mut map, &mut log)?;
    finish(&rt, c, &mut map, &mut log)
}
