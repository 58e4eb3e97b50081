// All rounds of a plan: at most 10,000, and none begins with work above 2,000,000,000.
ghost use Rattle.std.specs.Prelude.{◌≡◌, ◌*◌, ◌≤◌, length};
ghost use Rattle.setup.specs.Place.{cells_of};
ghost use Rattle.cutting.specs.Piece.{Listed};
ghost use Rattle.workspace.specs.Standing.{Standing};
ghost use Rattle.plan.specs.Parts.{slices_in, ground_in};
ghost use Rattle.plan.specs.Rounds.{el, first_progress, plan_of, EndKept};

use super::parts::{Progress, Step, round};
use cutting::listing::Full;
use cutting::piece::State;
use setup::Setup;

const MAX_ROUNDS: usize = 10000;

const MAX_WORK: usize = 2000000000;

// The tool is nowhere, and nothing is listed.
fn first() -> Progress
    ensures { result ≡ first_progress }
{
    let state = State {
        pos: None,
        rows: 0,
        triples: 0,
        planned_max: 0.0,
        work: 0,
    };
    Progress {
        state,
        all: true,
        given: 0,
        cleanup: false,
    }
}

// What the plan came to, and whether its budget was spent.
pub fn plan(
    s: Setup,
    vs: &[f64],
    lens: &[u32],
    pref: f64,
    b: &mut [u8],
    u: &mut [u32],
    f: &mut [f32],
    w: &mut [f64],
    triples: &mut [f64],
    rows: &mut [u32],
) -> Result<(Progress, bool), Full>
    requires standing { Standing s vs.now lens.now b.old u.old w.old }
    requires s_in_bounds { 2 * cells_of s ≤ length f.old }
    requires listed { Listed rows.old triples.old first_progress.state 0 }
    ensures result_after { el (slices_in (cells_of s) b.new u.new f.new rows.new triples.new) result ≡ (plan_of (ground_in s vs.now lens.now pref b.old w.old) (slices_in (cells_of s) b.old u.old f.old rows.old triples.old)).left }
    ensures end_kept { EndKept (cells_of s) b.old u.old rows.old f.old w.old triples.old b.new u.new rows.new f.new w.new triples.new result }
{
    let mut p = first();
    for k in 0..MAX_ROUNDS {
        if MAX_WORK < p.state.work {
            return Ok((p, true));
        }
        let a = round(s, p, vs, lens, pref, b, u, f, w, triples, rows)?;
        match a {
            Step::Again(q) => p = q,
            Step::Next(q) => return Ok((q, false)),
            Step::Done(q) => return Ok((q, false)),
        }
    }
    Ok((p, false))
}
