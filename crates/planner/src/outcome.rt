// The planner's answer.
ghost use Rattle.std.specs.Prelude.{◌≡◌, ◌*◌, ◌≤◌, length, take};
ghost use Rattle.raster.specs.Grid.{Sides};
ghost use Rattle.setup.specs.Layout.{map_in};
ghost use Rattle.setup.specs.Place.{cells_of};
ghost use Rattle.workspace.specs.Standing.{reach_in, Standing};
ghost use Rattle.entry.specs.Questions.{helix_of};
ghost use Rattle.entry.specs.Admitted.{Admitted};
ghost use Rattle.plan.specs.Parts.{slices_in, ground_in};
ghost use Rattle.plan.specs.Rounds.{ListedEnd};
ghost use Rattle.report.specs.Zero.{lent, used};
ghost use Rattle.planner.specs.Planner.{job, answer_by, used_of, threes, outcome, refusal_number, lengths_of, planned_by, planned_of, outcome_of};
ghost use Rattle.planner.specs.Answered.{AnswerTold};

use cutting::listing::Full;
use entry::judge::{Lengths, judge};
use entry::params::{AdaptiveParams, helix_of};
use entry::questions::Question;
use plan::parts::Progress;
use plan::turns::plan;
use raster::grid::Grid;
use report::clear::{Used, clear};
use report::report::{AdaptiveReport, Finish, report_of};
use setup::Setup;
use setup::layout::cells;
use start::ready::{make_ready, setup_of};

// Why a job has no plan: the first question on it that is a no, what is full where an event has no room, or that
// nothing of the stock is entered.
#[derive(Clone, Copy)]
pub enum Refusal {
    No(Question),
    NoRoom(Full),
    Unentered,
}

// Document 01's number of it: 1 to 15, 16 and 17, 18.
impl From<Refusal> for u32 {
    ghost from_gives = { λ r n. n ≡ refusal_number r };

    fn from(r: Refusal) -> u32 {
        match r {
            Refusal::No(question) => question.number(),
            Refusal::NoRoom(full) => full.into(),
            Refusal::Unentered => 18,
        }
    }
}

// A row's numbers are u32: so many rows or triples can be named.
const MAX_LISTED: usize = 4294967295;

// How many rows or triples a slice of n numbers has.
fn threes(n: usize) -> usize
    ensures { result ≡ threes n }
{
    let k = n / 3;
    if MAX_LISTED < k {
        return MAX_LISTED;
    }
    k
}

// 16 and 17 as planning met them, 18 by count, else the report.
fn answer_of(
    p: AdaptiveParams,
    s: Setup,
    starting: usize,
    e: Result<(Progress, bool), Full>,
    b: &[u8],
    rows: &[u32],
    triples: &[f64],
) -> Result<AdaptiveReport, Refusal>
    requires sides { Sides s.grid }
    requires s_in_bounds { 8 * cells_of s ≤ length b.now }
    requires listed_end { ListedEnd rows.now triples.now e }
    ensures { result ≡ answer_by p s.grid.cell starting (reach_in (cells_of s) b.now) (map_in (cells_of s) b.now) rows.now triples.now e }
{
    match e {
        Err(full) => Err(Refusal::NoRoom(full)),
        Ok((q, spent)) => {
            let t = q.state;
            if (t.rows == 0) & (0 < starting) {
                return Err(Refusal::Unentered);
            }
            let f = Finish {
                top: p.top,
                bottom: p.bottom,
                step_down: p.step_down,
                starting,
                given_up: q.given,
                spent,
            };
            Ok(report_of(s.grid, f, t, b, rows, triples))
        }
    }
}

fn nothing() -> Used
    ensures { result ≡ used 0 0 0 }
{
    Used {
        cells: 0,
        rows: 0,
        triples: 0,
    }
}

// What stays of a plan; after a refusal nothing.
fn used_by(n: usize, e: Result<(Progress, bool), Full>, a: Result<AdaptiveReport, Refusal>) -> Used
    ensures { result ≡ used_of n e a }
{
    match a {
        Err(_) => nothing(),
        Ok(_) => match e {
            Err(_) => nothing(),
            Ok((q, _)) => {
                let t = q.state;
                Used {
                    cells: n,
                    rows: t.rows,
                    triples: t.triples,
                }
            }
        },
    }
}

// Plans over a workspace that is ready, and clears up.
fn plan_ready(
    p: AdaptiveParams,
    s: Setup,
    vs: &[f64],
    lens: &[u32],
    b: &mut [u8],
    u: &mut [u32],
    f: &mut [f32],
    w: &mut [f64],
    rows: &mut [u32],
    triples: &mut [f64],
) -> Result<AdaptiveReport, Refusal>
    requires standing { Standing s vs.now lens.now b.old u.old w.old }
    requires s_in_bounds { 2 * cells_of s ≤ length f.old }
    ensures { outcome (lent b.new u.new f.new w.new rows.new triples.new) result ≡ planned_by p (ground_in s vs.now lens.now (helix_of p) b.old w.old) (slices_in (cells_of s) b.old u.old f.old (take (3 * threes (length rows.old)) rows.old) (take (3 * threes (length triples.old)) triples.old)) (lent b.old u.old f.old w.old rows.old triples.old) }
{
    let n = cells(s.grid);
    let starting = raster::stock::count(&b[0..n]);
    let r = 3 * threes(rows.len());
    let t = 3 * threes(triples.len());
    let e = plan(
        s,
        vs,
        lens,
        helix_of(p),
        b,
        u,
        f,
        w,
        &mut triples[0..t],
        &mut rows[0..r],
    );
    let a = answer_of(p, s, starting, e, b, &rows[0..r], &triples[0..t]);
    clear(used_by(n, e, a), b, u, f, w, rows, triples);
    a
}

// Plans a job that is fit, on the raster g.
fn plan_fit(
    p: AdaptiveParams,
    whole: bool,
    g: Grid,
    vs: &[f64],
    lens: &[u32],
    regions: &[u32],
    b: &mut [u8],
    u: &mut [u32],
    f: &mut [f32],
    w: &mut [f64],
    rows: &mut [u32],
    triples: &mut [f64],
) -> Result<AdaptiveReport, Refusal>
    requires { Admitted p whole vs.now lens.now regions.now (lengths_of (lent b.old u.old f.old w.old rows.old triples.old)) g }
    ensures { outcome (lent b.new u.new f.new w.new rows.new triples.new) result ≡ planned_of (job p whole vs.now lens.now regions.now) (lent b.old u.old f.old w.old rows.old triples.old) }
{
    let s = setup_of(p, g, lens, regions);
    make_ready(s, whole, vs, lens, regions, b, u, f, w, rows, triples);
    plan_ready(p, s, vs, lens, b, u, f, w, rows, triples)
}

// Plans a job. `whole`: there is no list of stock regions, the whole pocket is stock; else the regions after
// the first are.
pub fn adaptive_clear(
    p: AdaptiveParams,
    whole: bool,
    vs: &[f64],
    lens: &[u32],
    regions: &[u32],
    b: &mut [u8],
    u: &mut [u32],
    f: &mut [f32],
    w: &mut [f64],
    rows: &mut [u32],
    triples: &mut [f64],
) -> Result<AdaptiveReport, Refusal>
    ensures result_after { outcome (lent b.new u.new f.new w.new rows.new triples.new) result ≡ outcome_of (job p whole vs.now lens.now regions.now) (lent b.old u.old f.old w.old rows.old triples.old) }
    ensures answer_told { AnswerTold (job p whole vs.now lens.now regions.now) (lent b.old u.old f.old w.old rows.old triples.old) (lent b.new u.new f.new w.new rows.new triples.new) result }
{
    let l = Lengths {
        bytes: b.len(),
        words: u.len(),
        singles: f.len(),
        doubles: w.len(),
    };
    match judge(p, whole, vs, lens, regions, l) {
        Err(question) => Err(Refusal::No(question)),
        Ok(g) => plan_fit(p, whole, g, vs, lens, regions, b, u, f, w, rows, triples),
    }
}
