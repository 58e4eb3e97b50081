// Document 01's examples of whole jobs, a line each. The pocket is three equal vertices: a raster of 5 by 5 cells,
// without stock.
#![tactic(auto)]

ghost use Rattle.std.specs.Prelude.{◌≡◌};
ghost use Rattle.examples.specs.Examples.{answer_to, chunks_of, guard_half};

use entry::params::{AdaptiveParams, cell_of};
use planner::outcome::{Refusal, adaptive_clear};
use report::report::AdaptiveReport;
use setup::limits::guard_of;
use std::io;
use std::num::wrapping_add_u64;

// A job like any other, but for what an example is about.
fn params(diameter: f64, engagement: f64, bottom: f64, resolution: Option<f64>) -> AdaptiveParams {
    AdaptiveParams {
        tool_diameter: diameter,
        max_engagement_deg: engagement,
        step_down: 6.0,
        top: 0.0,
        bottom,
        stock_to_leave: 0.0,
        safe_z: 5.0,
        feed: 1000.0,
        plunge_feed: 300.0,
        link_feed: 1000.0,
        helix_ramp_deg: 2.0,
        helix_radius: None,
        chip_thinning_max: None,
        resolution,
        keep_tool_down: true,
    }
}

fn answer(p: AdaptiveParams) -> Result<AdaptiveReport, Refusal>
    ensures { result ≡ answer_to p }
{
    let vs = [0.0f64; 6];
    let lens = [3u32];
    let regions = [1u32];
    let mut b = [0u8; 200];
    let mut u = [0u32; 8992];
    let mut f = [0.0f32; 50];
    let mut w = [0.0f64; 8992];
    let mut rows = [0u32; 3];
    let mut triples = [0.0f64; 3];
    adaptive_clear(
        p,
        true,
        &vs,
        &lens,
        &regions,
        &mut b,
        &mut u,
        &mut f,
        &mut w,
        &mut rows,
        &mut triples,
    )
}

// Document 01's number of it.
fn say_refusal(rt: &impl Print, r: Refusal) -> io::Result<()> {
    let n: u32 = r.into();
    println!(rt; "{n}")
}

// The number of a refusal, or that there is none.
fn say_answer(rt: &impl Print, a: Result<AdaptiveReport, Refusal>) -> io::Result<()> {
    match a {
        Err(refusal) => say_refusal(rt, refusal),
        Ok(_) => println!(rt; "accepted"),
    }
}

fn chunks(r: AdaptiveReport) -> u64
    ensures { result ≡ chunks_of r }
{
    let ways = wrapping_add_u64(r.links as u64, r.retracts as u64);
    let cuts = wrapping_add_u64(r.passes as u64, r.helix_entries as u64);
    wrapping_add_u64(ways, cuts)
}

fn say_chunks(rt: &impl Print, a: Result<AdaptiveReport, Refusal>) -> io::Result<()> {
    match a {
        Err(refusal) => say_refusal(rt, refusal),
        Ok(r) => {
            let count = chunks(r);
            println!(rt; "accepted, {count} chunks")
        }
    }
}

fn engagements(rt: &impl Print) -> io::Result<()> {
    print!(rt; "engagement 1: ")?;
    say_answer(rt, answer(params(6.0, 1.0, -6.0, None)))?;
    print!(rt; "engagement 0.999: ")?;
    say_answer(rt, answer(params(6.0, 0.999, -6.0, None)))?;
    print!(rt; "engagement 180: ")?;
    say_answer(rt, answer(params(6.0, 180.0, -6.0, None)))
}

fn resolutions(rt: &impl Print) -> io::Result<()> {
    print!(rt; "diameter 6, resolution 0.1: ")?;
    say_answer(rt, answer(params(6.0, 40.0, -6.0, Some(0.1))))?;
    print!(rt; "diameter 6, resolution 0.11: ")?;
    say_answer(rt, answer(params(6.0, 40.0, -6.0, Some(0.11))))
}

// Whether the guard is half the limit.
fn guard_halves(p: AdaptiveParams) -> bool
    ensures { result ≡ guard_half p }
{
    let limit = numbers::circle::to_radians(p.max_engagement_deg);
    guard_of(limit, cell_of(p), p.tool_diameter * 0.5) == limit * 0.5
}

fn say_guard(rt: &impl Print, p: AdaptiveParams) -> io::Result<()> {
    if guard_halves(p) {
        println!(rt; "guard is half the limit")
    } else {
        println!(rt; "guard is not half the limit")
    }
}

fn main(rt: HostRuntime) -> io::Result<()> {
    engagements(&rt)?;
    resolutions(&rt)?;
    print!(rt; "diameter 0, bottom above top: ")?;
    say_answer(&rt, answer(params(0.0, 40.0, 1.0, None)))?;
    print!(rt; "three equal vertices: ")?;
    say_chunks(&rt, answer(params(6.0, 40.0, -6.0, None)))?;
    print!(rt; "engagement 1, default cell: ")?;
    say_guard(&rt, params(6.0, 1.0, -6.0, None))
}
