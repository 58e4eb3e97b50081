// A piece cut: the way to the first pass that is worth it, judged on the map before the pass, and the pass
// kept.
ghost use Rattle.std.specs.Prelude.{◌≡◌, ◌*◌, ◌≤◌, length};
ghost use Rattle.loops.specs.Frame.{Only};
ghost use Rattle.raster.specs.Grid.{Sides};
ghost use Rattle.raster.specs.Log.{undone, redone, Logged};
ghost use Rattle.setup.specs.Layout.{most, map_put, dirty_put, allowed_in, dirty_in, log_in, map_in, cost_from, guide_from, path_end, segments_from};
ghost use Rattle.setup.specs.Place.{cells_of};
ghost use Rattle.links.specs.Path.{wall_in, Fitted};
ghost use Rattle.links.specs.Link.{way_by};
ghost use Rattle.passes.specs.Guide.{points_in};
ghost use Rattle.cutting.specs.Tries.{Among};
ghost use Rattle.cutting.specs.Way.{moves_of};
ghost use Rattle.cutting.specs.Piece.{spending, left_in, kept_of, went_of, cut_piece_of, Lends, Listed, Settled, Behind};

use super::listing::{Full, greatest, list_pass, moves_of, room};
use super::tries::try_piece;
use super::way::way_to;
use events::list::spot;
use geom::vec2::Vec2;
use links::link::Route;
use passes::attempt::Attempt;
use passes::shifts::sat_add;
use setup::{Setup, layout};

// What planning holds by value: where the tool is, how many rows and triples are listed, the greatest
// contact of a listed point, and the work.
#[derive(Clone, Copy)]
pub struct State {
    pub pos: Option<Vec2>,
    pub rows: usize,
    pub triples: usize,
    pub planned_max: f64,
    pub work: usize,
}

// What became of a piece: nothing worth it, or a pass kept.
#[derive(Clone, Copy)]
pub enum Cut {
    Nothing(State),
    Kept(State),
}

// Work that was spent: of the tries, of a search, of the field.
pub fn spend(t: State, work: usize) -> State
    ensures { result ≡ spending work t }
{
    State {
        work: sat_add(t.work, work),
        ..t
    }
}

// The logged cells are cleared for good and marked dirty.
fn settle(b: &mut [u8], log: &[u32], n: usize, removed: usize)
    requires n_le_most { n ≤ most }
    requires n_in_bounds { 8 * n ≤ length b.old }
    requires logged { Logged log.now removed n }
    ensures { b.new ≡ dirty_put n (undone log.now 0 removed (dirty_in n b.old)) (map_put n (redone log.now 0 removed (map_in n b.old)) b.old) }
{
    let d = layout::dirty(n);
    let e = d + n;
    raster::log::clear_again(&mut b[0..n], &log[..removed]);
    raster::log::undo(&mut b[d..e], &log[..removed]);
}

// Keeps the pass on trial behind its way, where all their chunks fit: `removed` cells are logged, and its n
// points stand in the triples behind the listed ones. The way's points are those of `path`.
fn keep_pass(
    s: Setup,
    t: State,
    b: &mut [u8],
    log: &[u32],
    path: &[f64],
    triples: &mut [f64],
    rows: &mut [u32],
    route: Route,
    removed: usize,
    n: usize,
) -> Result<Cut, Full>
    requires sides { Sides s.grid }
    requires s_in_bounds { 8 * cells_of s ≤ length b.old }
    requires logged { Logged log.now removed (cells_of s) }
    requires route_in_bounds { 2 * moves_of route ≤ length path.now }
    requires listed { Listed rows.old triples.old t n }
    requires le_n { 1 ≤ n }
    ensures result_after { left_in (cells_of s) b.new log.now rows.new triples.new result ≡ (kept_of s (way_by route path.now) removed n t (map_in (cells_of s) b.old) (dirty_in (cells_of s) b.old) log.now rows.old triples.old).left }
    ensures settled { Settled (cells_of s) b.old b.new }
{
    let first = t.triples;
    let row = t.rows;
    let moves = moves_of(route);
    room(triples.len() / 3 - first, rows.len() / 3 - row, moves, n)?;
    let planned_max = greatest(triples, first, n, t.planned_max);
    let lead = spot(triples, first);
    let last = spot(triples, first + n - 1);
    list_pass(triples, rows, path, route, lead, first, row, n);
    settle(b, log, s.grid.ny * s.grid.nx, removed);
    Ok(Cut::Kept(State {
        pos: Some(last),
        rows: row + moves + 1,
        triples: first + moves + n,
        planned_max,
        work: t.work,
    }))
}

// The way to the pass on trial, judged on the map before it; then the pass is kept.
fn go_and_keep(
    s: Setup,
    t: State,
    vs: &[f64],
    lens: &[u32],
    b: &mut [u8],
    u: &mut [u32],
    w: &mut [f64],
    triples: &mut [f64],
    rows: &mut [u32],
    removed: usize,
    n: usize,
) -> Result<Cut, Full>
    requires fitted { Fitted s vs.now lens.now (map_in (cells_of s) b.old) w.old }
    requires lends { Lends (cells_of s) b.old u.old }
    requires logged { Logged (log_in (cells_of s) u.old) removed (cells_of s) }
    requires listed { Listed rows.old triples.old t n }
    requires le_n { 1 ≤ n }
    ensures result_after { left_in (cells_of s) b.new (log_in (cells_of s) u.new) rows.new triples.new result ≡ (went_of s (wall_in s w.old) vs.now lens.now (allowed_in (cells_of s) b.old) t removed n (map_in (cells_of s) b.old) (dirty_in (cells_of s) b.old) (log_in (cells_of s) u.old) rows.old triples.old).left }
    ensures settled { Settled (cells_of s) b.old b.new }
    ensures only { Only 0 (segments_from (cells_of s)) u.old u.new }
    ensures only_2 { Only (cost_from (cells_of s)) (path_end (cells_of s)) w.old w.new }
{
    let size = s.grid.ny * s.grid.nx;
    let to = spot(triples, t.triples);
    let pos = t.pos;
    let allowed = layout::allowed(size);
    let r = way_to(
        s,
        vs,
        lens,
        &b[0..size],
        &b[allowed..allowed + size],
        u,
        w,
        pos,
        to,
    );
    let log = layout::log(size);
    let path = layout::path(size);
    keep_pass(
        s,
        spend(t, r.work),
        b,
        &u[log..log + size],
        &w[path..path + 3 * size],
        triples,
        rows,
        r,
        removed,
        n,
    )
}

// Cuts the piece of m points at `from` of the workspace, open or closed.
pub fn cut_piece(
    s: Setup,
    t: State,
    vs: &[f64],
    lens: &[u32],
    b: &mut [u8],
    u: &mut [u32],
    w: &mut [f64],
    triples: &mut [f64],
    rows: &mut [u32],
    from: usize,
    m: usize,
    closed: bool,
) -> Result<Cut, Full>
    requires fitted { Fitted s vs.now lens.now (map_in (cells_of s) b.old) w.old }
    requires lends { Lends (cells_of s) b.old u.old }
    requires among { Among (cells_of s) from m }
    requires listed { Listed rows.old triples.old t 0 }
    ensures result_after { left_in (cells_of s) b.new (log_in (cells_of s) u.new) rows.new triples.new result ≡ (cut_piece_of s (wall_in s w.old) vs.now lens.now (allowed_in (cells_of s) b.old) (points_in from m w.old) closed t (map_in (cells_of s) b.old) (dirty_in (cells_of s) b.old) rows.old (log_in (cells_of s) u.old) triples.old).left }
    ensures settled { Settled (cells_of s) b.old b.new }
    ensures behind { Behind (cells_of s) u.old u.new }
    ensures only { Only (guide_from (cells_of s)) (path_end (cells_of s)) w.old w.new }
{
    let n = s.grid.ny * s.grid.nx;
    let log = layout::log(n);
    let pos = t.pos;
    let a = try_piece(
        s,
        vs,
        lens,
        &mut b[0..n],
        &mut u[log..log + n],
        w,
        triples,
        t.triples,
        from,
        m,
        closed,
        pos,
    );
    match a {
        Attempt::Full => Err(Full::Triples),
        Attempt::Worth(points, removed, work) => go_and_keep(
            s,
            spend(t, work),
            vs,
            lens,
            b,
            u,
            w,
            triples,
            rows,
            removed,
            points,
        ),
        Attempt::Nothing(work) => Ok(Cut::Nothing(spend(t, work))),
    }
}
