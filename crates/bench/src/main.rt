// Document 01's bench: its lines on standard input, its answers on standard output. The input is read as it
// comes, so that a line is answered when it has been read, and no line is kept, so that its length does not
// matter.
#![tactic(auto)]

ghost use Rattle.std.specs.Prelude.{IfOk};
ghost use Rattle.bench_lines.specs.Obey.{Fit};

use bench_talk::Talk;
use std::io;
use std::io::Read;

// The turns are counted, since nothing says that the input ends. One `listen` for both programs would need a trait over
// what they keep, with its bench as a ghost member: longer than the two.
fn listen(
    rt: &(impl Input + Print),
    start: Talk,
    map: &mut [u8],
    log: &mut [u32],
) -> io::Result<Talk>
    requires { Fit start.bench map.old log.old }
    ensures { IfOk result (λ r. Fit r.bench map.new log.new) }
{
    let mut input = rt.reader();
    let mut buffer = [0u8; 4096];
    let mut t = start;
    for _ in 0..u64::MAX {
        let n = input.read(&mut buffer)?;
        t = bench_talk::bytes(rt, &buffer[..n], t, map, log)?;
        if n == 0 || t.ended {
            break;
        }
    }
    Ok(t)
}

fn main(rt: HostRuntime) -> io::Result<()> {
    let mut map = [0u8; 4096];
    let mut log = [0u32; 4096];
    let start = bench_talk::start();
    let t = listen(&rt, start, &mut map, &mut log)?;
    bench_talk::finish(&rt, t, &mut map, &mut log)?;
    Ok(())
}
