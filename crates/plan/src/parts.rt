// A round in three parts: the curves of the field cut, the ring cut, an entry by a helix.
ghost use Rattle.std.specs.Prelude.{◌≡◌, ◌+◌, ◌*◌, ◌≤◌, Float, length};
ghost use Rattle.setup.specs.Place.{cells_of};
ghost use Rattle.cutting.specs.Piece.{Listed};
ghost use Rattle.workspace.specs.Standing.{Standing};
ghost use Rattle.plan.specs.Parts.{lf, pieces_step, ring_step, helix_step, pieces_part, ring_part, helix_part, rest_of, round_of, slices_in, ground_in, Kept};

use cutting::listing::Full;
use cutting::piece::{State, spend};
use setup::Setup;

// What planning holds by value besides: whether the whole field is to be worked out anew, how many places
// of a helix were given up, and whether the ring was cut since the last pass.
#[derive(Clone, Copy)]
pub struct Progress {
    pub state: State,
    pub all: bool,
    pub given: usize,
    pub cleanup: bool,
}

// How a part of a round leaves it: the round goes on, the next one begins, or the plan is done.
#[derive(Clone, Copy)]
pub enum Step {
    Next(Progress),
    Again(Progress),
    Done(Progress),
}

// After the curves, `any` saying whether a pass was kept.
fn after_pieces(p: Progress, state: State, any: bool) -> Step
    ensures { result ≡ pieces_step p state any }
{
    if any {
        return Step::Again(Progress {
            state,
            all: false,
            cleanup: false,
            ..p
        });
    }
    Step::Next(Progress {
        state,
        all: false,
        ..p
    })
}

// After the ring, likewise.
fn after_ring(p: Progress, state: State, any: bool) -> Step
    ensures { result ≡ ring_step p state any }
{
    let next = Progress {
        state,
        cleanup: true,
        ..p
    };
    if any {
        return Step::Again(next);
    }
    Step::Next(next)
}

// After n places of a helix were given up; `entered` is the state after an entry.
fn after_helix(p: Progress, entered: Option<State>, n: usize) -> Step
    requires { p.given + n ≤ 1000000 }
    ensures { result ≡ helix_step p entered n }
{
    let given = p.given + n;
    let Some(state) = entered else {
        return Step::Done(Progress { given, ..p });
    };
    Step::Again(Progress {
        state,
        all: true,
        given,
        cleanup: false,
    })
}

// The curves of the field, cut.
fn cut_pieces(
    s: Setup,
    p: Progress,
    vs: &[f64],
    lens: &[u32],
    b: &mut [u8],
    u: &mut [u32],
    f: &mut [f32],
    w: &mut [f64],
    triples: &mut [f64],
    rows: &mut [u32],
) -> Result<Step, Full>
    requires standing { Standing s vs.now lens.now b.old u.old w.old }
    requires s_in_bounds { 2 * cells_of s ≤ length f.old }
    requires listed { Listed rows.old triples.old p.state 0 }
    ensures result_after { (pref : Float) → lf (slices_in (cells_of s) b.new u.new f.new rows.new triples.new) result ≡ (pieces_part (ground_in s vs.now lens.now pref b.old w.old) p (slices_in (cells_of s) b.old u.old f.old rows.old triples.old)).left }
    ensures kept { Kept (cells_of s) b.old u.old rows.old f.old w.old triples.old b.new u.new rows.new f.new w.new triples.new result }
{
    let t = p.state;
    let q = tracing::round::trace_round(s, p.all, b, u, f, w);
    let (state, any) = rounds::round::cut_pieces(
        s,
        spend(t, q.work),
        vs,
        lens,
        b,
        u,
        w,
        triples,
        rows,
        q.pieces,
    )?;
    Ok(after_pieces(p, state, any))
}

// The ring, cut once per clean-up.
fn cut_ring(
    s: Setup,
    p: Progress,
    vs: &[f64],
    lens: &[u32],
    b: &mut [u8],
    u: &mut [u32],
    f: &mut [f32],
    w: &mut [f64],
    triples: &mut [f64],
    rows: &mut [u32],
) -> Result<Step, Full>
    requires standing { Standing s vs.now lens.now b.old u.old w.old }
    requires s_in_bounds { 2 * cells_of s ≤ length f.old }
    requires listed { Listed rows.old triples.old p.state 0 }
    ensures result_after { (pref : Float) → lf (slices_in (cells_of s) b.new u.new f.new rows.new triples.new) result ≡ (ring_part (ground_in s vs.now lens.now pref b.old w.old) p (slices_in (cells_of s) b.old u.old f.old rows.old triples.old)).left }
    ensures kept { Kept (cells_of s) b.old u.old rows.old f.old w.old triples.old b.new u.new rows.new f.new w.new triples.new result }
{
    if p.cleanup {
        return Ok(Step::Next(p));
    }
    let t = p.state;
    let m = tracing::ring::trace_ring(s, vs, lens, b, u, f, w);
    let (state, any) = rounds::round::cut_ring(s, t, vs, lens, b, u, w, triples, rows, m)?;
    Ok(after_ring(p, state, any))
}

// An entry by a helix, where there is room for one.
fn enter(
    s: Setup,
    p: Progress,
    vs: &[f64],
    lens: &[u32],
    pref: f64,
    b: &mut [u8],
    u: &mut [u32],
    f: &[f32],
    w: &[f64],
    triples: &mut [f64],
    rows: &mut [u32],
) -> Result<Step, Full>
    requires standing { Standing s vs.now lens.now b.old u.old w.now }
    requires s_in_bounds { 2 * cells_of s ≤ length f.now }
    requires listed { Listed rows.old triples.old p.state 0 }
    requires given_bound { p.given ≤ 900000 }
    ensures result_after { lf (slices_in (cells_of s) b.new u.new f.now rows.new triples.new) result ≡ (helix_part (ground_in s vs.now lens.now pref b.old w.now) p (slices_in (cells_of s) b.old u.old f.now rows.old triples.old)).left }
    ensures kept { Kept (cells_of s) b.old u.old rows.old f.now w.now triples.old b.new u.new rows.new f.now w.now triples.new result }
{
    let t = p.state;
    let (entered, n) = helix::enter::enter(s, t, vs, lens, pref, b, u, w, triples, rows)?;
    Ok(after_helix(p, entered, n))
}

// The ring, then the helix.
fn rest(
    s: Setup,
    p: Progress,
    vs: &[f64],
    lens: &[u32],
    pref: f64,
    b: &mut [u8],
    u: &mut [u32],
    f: &mut [f32],
    w: &mut [f64],
    triples: &mut [f64],
    rows: &mut [u32],
) -> Result<Step, Full>
    requires standing { Standing s vs.now lens.now b.old u.old w.old }
    requires s_in_bounds { 2 * cells_of s ≤ length f.old }
    requires listed { Listed rows.old triples.old p.state 0 }
    requires given_bound { p.given ≤ 900000 }
    ensures result_after { lf (slices_in (cells_of s) b.new u.new f.new rows.new triples.new) result ≡ (rest_of (ground_in s vs.now lens.now pref b.old w.old) p (slices_in (cells_of s) b.old u.old f.old rows.old triples.old)).left }
    ensures kept { Kept (cells_of s) b.old u.old rows.old f.old w.old triples.old b.new u.new rows.new f.new w.new triples.new result }
{
    let a = cut_ring(s, p, vs, lens, b, u, f, w, triples, rows)?;
    let Step::Next(q) = a else {
        return Ok(a);
    };
    enter(s, q, vs, lens, pref, b, u, f, w, triples, rows)
}

pub fn round(
    s: Setup,
    p: Progress,
    vs: &[f64],
    lens: &[u32],
    pref: f64,
    b: &mut [u8],
    u: &mut [u32],
    f: &mut [f32],
    w: &mut [f64],
    triples: &mut [f64],
    rows: &mut [u32],
) -> Result<Step, Full>
    requires standing { Standing s vs.now lens.now b.old u.old w.old }
    requires s_in_bounds { 2 * cells_of s ≤ length f.old }
    requires listed { Listed rows.old triples.old p.state 0 }
    requires given_bound { p.given ≤ 900000 }
    ensures result_after { lf (slices_in (cells_of s) b.new u.new f.new rows.new triples.new) result ≡ (round_of (ground_in s vs.now lens.now pref b.old w.old) p (slices_in (cells_of s) b.old u.old f.old rows.old triples.old)).left }
    ensures kept { Kept (cells_of s) b.old u.old rows.old f.old w.old triples.old b.new u.new rows.new f.new w.new triples.new result }
{
    let a = cut_pieces(s, p, vs, lens, b, u, f, w, triples, rows)?;
    let Step::Next(q) = a else {
        return Ok(a); // a pass was cut
    };
    rest(s, q, vs, lens, pref, b, u, f, w, triples, rows)
}
