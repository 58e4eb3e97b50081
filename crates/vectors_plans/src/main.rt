// Stored plans of the Rust, planned again: what is written is the oracle's answer (README.md has the lines). The
// lent slices hold sevens before, and so do the places that are not lent.
#![tactic(auto)]

ghost use Rattle.std.specs.Prelude.{◌≤◌, length};

use entry::params::AdaptiveParams;
use planner::outcome::{Refusal, adaptive_clear};
use prints::{Printed, print};
use report::report::AdaptiveReport;
use std::io;

fn say<T: Printed>(rt: &impl Print, x: T) -> io::Result<()> {
    let n = x.number();
    println!(rt; "{n}")
}

fn say_counts(rt: &impl Print, r: AdaptiveReport) -> io::Result<()> {
    say(rt, r.layers)?;
    say(rt, r.passes)?;
    say(rt, r.helix_entries)?;
    say(rt, r.retracts)?;
    say(rt, r.links)?;
    say(rt, r.starting_cells)?;
    say(rt, r.standing_cells)?;
    say(rt, r.helix_given_up)?;
    say(rt, r.spent_budget)?;
    say(rt, r.left_reachable)
}

fn say_areas(rt: &impl Print, r: AdaptiveReport) -> io::Result<()> {
    say(rt, r.planned_max_engagement_deg)?;
    say(rt, r.removed_area)?;
    say(rt, r.remaining_reachable_area)?;
    say(rt, r.unreachable_area)
}

fn say_answer(rt: &impl Print, a: Result<AdaptiveReport, Refusal>) -> io::Result<()> {
    match a {
        Err(refusal) => {
            let n: u32 = refusal.into();
            say(rt, n)
        }
        Ok(r) => {
            say(rt, 0u32)?;
            say_counts(rt, r)?;
            say_areas(rt, r)
        }
    }
}

// Plans with so many numbers of rows and triples lent; the answer, and the fingerprint of each slice.
fn plan_in(
    rt: &impl Print,
    p: AdaptiveParams,
    whole: bool,
    vs: &[f64],
    lens: &[u32],
    regions: &[u32],
    b: &mut [u8],
    u: &mut [u32],
    f: &mut [f32],
    w: &mut [f64],
    rows: &mut [u32],
    triples: &mut [f64],
    r: usize,
    t: usize,
) -> io::Result<()>
    requires r_in_bounds { r ≤ length rows.old }
    requires t_in_bounds { t ≤ length triples.old }
{
    let a = adaptive_clear(
        p,
        whole,
        vs,
        lens,
        regions,
        b,
        u,
        f,
        w,
        &mut rows[0..r],
        &mut triples[0..t],
    );
    say_answer(rt, a)?;
    say(rt, print(b))?;
    say(rt, print(u))?;
    say(rt, print(w))?;
    say(rt, print(rows))?;
    say(rt, print(triples))
}

fn plan(
    rt: &impl Print,
    p: AdaptiveParams,
    whole: bool,
    vs: &[f64],
    lens: &[u32],
    regions: &[u32],
    r: usize,
    t: usize,
) -> io::Result<()>
    requires r_bound { r ≤ 300 }
    requires t_bound { t ≤ 3006 }
{
    let mut b = [7u8; 72200];
    let mut u = [7u32; 296992];
    let mut f = [7.0f32; 18050];
    let mut w = [7.0f64; 296992];
    let mut rows = [7u32; 300];
    let mut triples = [7.0f64; 3006];
    plan_in(
        rt,
        p,
        whole,
        vs,
        lens,
        regions,
        &mut b,
        &mut u,
        &mut f,
        &mut w,
        &mut rows,
        &mut triples,
        r,
        t,
    )
}

// The job doc-res-0.1: 51 rows, 1,001 triples.
fn params(keep_tool_down: bool) -> AdaptiveParams {
    AdaptiveParams {
        tool_diameter: 6.0,
        max_engagement_deg: 60.0,
        step_down: 6.0,
        top: 0.0,
        bottom: -6.0,
        stock_to_leave: 0.0,
        safe_z: 5.0,
        feed: 1000.0,
        plunge_feed: 300.0,
        link_feed: 1000.0,
        helix_ramp_deg: 2.0,
        helix_radius: None,
        chip_thinning_max: None,
        resolution: Some(0.1),
        keep_tool_down,
    }
}

fn square(rt: &impl Print, r: usize, t: usize) -> io::Result<()>
    requires r_bound { r ≤ 300 }
    requires t_bound { t ≤ 3006 }
{
    let vs = [0.0f64, 0.0, 9.0, 0.0, 9.0, 9.0, 0.0, 9.0];
    plan(rt, params(true), true, &vs, &[4u32], &[1u32], r, t)
}

// Stock over two thirds of it, and the tool lifted after each pass.
fn lifted(rt: &impl Print) -> io::Result<()> {
    let vs = [
        0.0f64, 0.0, 9.0, 0.0, 9.0, 9.0, 0.0, 9.0, 3.0, 0.0, 9.0, 0.0, 9.0, 9.0, 3.0, 9.0,
    ];
    plan(
        rt,
        params(false),
        false,
        &vs,
        &[4u32, 4],
        &[1u32, 1],
        300,
        3006,
    )
}

// With exactly what it needs, with a rest of two numbers, with a triple and with a row too few.
fn main(rt: HostRuntime) -> io::Result<()> {
    square(&rt, 153, 3003)?;
    square(&rt, 155, 3005)?;
    square(&rt, 153, 3002)?;
    square(&rt, 152, 3003)?;
    lifted(&rt)
}
