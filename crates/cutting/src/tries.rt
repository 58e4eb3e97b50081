// The starts of a piece tried in turn.
ghost use Rattle.std.specs.Prelude.{◌≡◌, cond, ◌+◌, ◌*◌, ◌≤◌, length};
ghost use Rattle.loops.specs.Frame.{Only};
ghost use Rattle.raster.specs.Log.{st, Ready};
ghost use Rattle.setup.specs.Layout.{most, guide_from, path_end};
ghost use Rattle.setup.specs.Place.{allowed_at, free_at, cells_of};
ghost use Rattle.links.specs.Path.{wall_in, Fitted};
ghost use Rattle.passes.specs.Guide.{points_in, blend_of};
ghost use Rattle.passes.specs.Start.{near_of};
ghost use Rattle.passes.specs.Attempt.{ans, answered, start_by};
ghost use Rattle.cutting.specs.Tries.{starts_of, guide_long, guide_of, tries_of, Among};

use geom::vec2::Vec2;
use passes::attempt::{Attempt, try_start};
use passes::shifts::sat_add;
use passes::start::{near_start, start_of};
use setup::Setup;

// How many starts are tried.
fn starts(closed: bool) -> usize
    ensures { result ≡ starts_of closed }
{
    if closed {
        return 4;
    }
    1
}

// How many points the guide of a piece of m points has.
fn long(m: usize, closed: bool) -> usize
    requires { m ≤ 2 * most }
    ensures { result ≡ guide_long m closed }
{
    if closed {
        return m + 1;
    }
    m
}

// The point where the first try starts: of a closed piece the nearest to the tool.
fn first(w: &[f64], from: usize, m: usize, closed: bool, pos: Option<Vec2>) -> usize
    requires le_m { 1 ≤ m }
    requires m_in_bounds { from + 2 * m ≤ length w.now }
    ensures { result ≡ cond closed (near_of (points_in from m w.now) pos) 0 }
{
    if closed {
        let e = from + 2 * m;
        return near_start(&w[from..e], pos);
    }
    0
}

// The piece of m points at `from` of the workspace, tried from its point `start` on.
fn try_from(
    s: Setup,
    vs: &[f64],
    lens: &[u32],
    map: &mut [u8],
    log: &mut [u32],
    w: &mut [f64],
    triples: &mut [f64],
    kept: usize,
    from: usize,
    m: usize,
    closed: bool,
    start: usize,
) -> Attempt
    requires fitted { Fitted s vs.now lens.now map.old w.old }
    requires ready { Ready (st map.old log.old 0) }
    requires among { Among (cells_of s) from m }
    requires closed_bound { start + guide_long m closed ≤ 2 * m }
    ensures map_unchanged { map.new ≡ map.old }
    ensures only { Only (guide_from (cells_of s)) (path_end (cells_of s)) w.old w.new }
    ensures result_after { ans log.new triples.new result ≡ answered (start_by s (allowed_at s (wall_in s w.old) vs.now lens.now) (blend_of s (allowed_at s (wall_in s w.old) vs.now lens.now) (free_at s map.old) (guide_of (points_in from m w.old) closed start)) kept map.old log.old triples.old) }
{
    let points = long(m, closed);
    try_start(
        s, vs, lens, map, log, w, triples, kept, from, m, start, points,
    )
}

// Tries the piece of m points at `from` of the workspace, from start to start until a pass is worth it or
// its triples do not fit. The map is as before; the log and the triples behind the listed ones are the last
// pass's, the work is that of all tries.
pub fn try_piece(
    s: Setup,
    vs: &[f64],
    lens: &[u32],
    map: &mut [u8],
    log: &mut [u32],
    w: &mut [f64],
    triples: &mut [f64],
    kept: usize,
    from: usize,
    m: usize,
    closed: bool,
    pos: Option<Vec2>,
) -> Attempt
    requires fitted { Fitted s vs.now lens.now map.old w.old }
    requires ready { Ready (st map.old log.old 0) }
    requires among { Among (cells_of s) from m }
    ensures map_unchanged { map.new ≡ map.old }
    ensures only { Only (guide_from (cells_of s)) (path_end (cells_of s)) w.old w.new }
    ensures result_after { ans log.new triples.new result ≡ answered (tries_of s (allowed_at s (wall_in s w.old) vs.now lens.now) (points_in from m w.old) closed pos kept map.old log.old triples.old).outcome }
{
    let near = first(w, from, m, closed, pos);
    let end = starts(closed);
    let mut work = 0;
    for k in 0..end {
        let start = start_of(near, m, k);
        let t = try_from(
            s, vs, lens, map, log, w, triples, kept, from, m, closed, start,
        );
        match t {
            Attempt::Full => return Attempt::Full,
            Attempt::Worth(points, removed, more) => {
                return Attempt::Worth(points, removed, sat_add(work, more));
            }
            Attempt::Nothing(more) => work = sat_add(work, more),
        }
    }
    Attempt::Nothing(work)
}
