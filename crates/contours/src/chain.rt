// Segments joined end to end into pieces.
ghost use Rattle.std.specs.Prelude.{◌≡◌, ◌+◌, ◌*◌, ◌<◌, ◌≤◌, length};
ghost use Rattle.loops.specs.Each.{Each};
ghost use Rattle.raster.specs.Grid.{Over};
ghost use Rattle.contours.specs.Edge.{Between};
ghost use Rattle.contours.specs.Square.{Joins};
ghost use Rattle.contours.specs.Chain.{extended, put_kept, edge_point, Chaining, Followed, starts_at};
ghost use Rattle.contours.specs.Traced.{segments_at, slices, Startable, Tracing, TakenUp, Started, AllStarted};

use super::edge::{EdgeNo, NOTHING, crossing, edge_at};
use super::places::{next_at, rows_at, words_end};
use super::tables::{is_used, next_of, use_edge};
use geom::vec2::Vec2;
use pieces::row::{Count, Row, put_row};
use raster::grid::Grid;

// How many points of a chain are kept, and the last of them.
#[derive(Clone, Copy)]
pub struct Trail {
    pub kept: usize,
    pub last: Vec2,
}

// p is the next point, unless it is near the last one.
fn extend(pts: &mut [f64], first: usize, t: Trail, p: Vec2) -> Trail
    requires { 2 * (first + t.kept) + 1 < length pts.old }
    ensures { (result ≡ extended p t) × (pts.new ≡ put_kept first p t pts.old) }
{
    let last = t.last;
    if p.distance(last) < 1e-9 {
        return t;
    }
    let k = t.kept;
    geom::points::put(pts, first + k, p);
    Trail {
        kept: k + 1,
        last: p,
    }
}

// A chain's points, and whether it comes back to its first edge.
#[derive(Clone, Copy)]
pub struct Chained {
    pub kept: usize,
    pub closed: bool,
}

// Follows the segments from edge s on, marks the edges used, and writes its points from point `first` on.
fn chain(
    g: Grid,
    f: &[f32],
    level: f32,
    next: &[u32],
    marks: &mut [u8],
    pts: &mut [f64],
    first: usize,
    s: EdgeNo,
) -> Chained
    requires over { Over g (length f.now) }
    requires chaining { Chaining g next.now marks.old pts.old first s.0 }
    ensures { Followed (edge_point g f.now level) next.now marks.old pts.old first s.0 marks.new pts.new result.kept result.closed }
{
    use_edge(marks, s);
    let p = crossing(g, f, level, s);
    geom::points::put(pts, first, p);
    let mut cur = s;
    let mut t = Trail { kept: 1, last: p };
    // From edge to edge as they lead on, which no iterator does.
    loop {
        let n = next_of(next, cur);
        if n == NOTHING {
            return Chained {
                kept: t.kept,
                closed: false,
            };
        }
        if n == s {
            return Chained {
                kept: t.kept,
                closed: true,
            };
        }
        if is_used(marks, n) {
            return Chained {
                kept: t.kept,
                closed: false,
            };
        }
        use_edge(marks, n);
        t = extend(pts, first, t, crossing(g, f, level, n));
        cur = n;
    }
}

// The chain from edge s on, a piece if it has two points.
fn take_up(
    g: Grid,
    f: &[f32],
    level: f32,
    n: usize,
    words: &mut [u32],
    marks: &mut [u8],
    pts: &mut [f64],
    c: Count,
    s: EdgeNo,
) -> Count
    requires over { Over g (length f.now) }
    requires tracing { Tracing g n words.old marks.old pts.old c }
    requires startable { Startable g marks.old s.0 }
    ensures { TakenUp g f.now level n s.0 c (slices words.old marks.old pts.old) result (slices words.new marks.new pts.new) }
{
    let first = c.points;
    let next = next_at(n);
    let rows = rows_at(n);
    let end = words_end(n);
    let k = chain(g, f, level, &words[next..rows], marks, pts, first, s);
    let kept = k.kept;
    if kept < 2 {
        return c;
    }
    let pieces = c.pieces;
    put_row(
        &mut words[rows..end],
        pieces,
        Row {
            first: first as u32,
            points: kept as u32,
            closed: k.closed,
        },
    );
    Count {
        pieces: pieces + 1,
        points: first + kept,
    }
}

// Whether a chain starts at an edge of this mark: at first only where nothing leads in, then wherever it is
// not used.
fn starts(first: bool, mark: u8) -> bool
    ensures { result ≡ starts_at first mark }
{
    if first { mark == 0 } else { mark != 1 }
}

fn start_at(
    g: Grid,
    f: &[f32],
    level: f32,
    n: usize,
    words: &mut [u32],
    marks: &mut [u8],
    pts: &mut [f64],
    c: Count,
    first: bool,
    s: EdgeNo,
) -> Count
    requires over { Over g (length f.now) }
    requires tracing { Tracing g n words.old marks.old pts.old c }
    requires between { Between g s }
    ensures { Started g f.now level n first s.0 c (slices words.old marks.old pts.old) result (slices words.new marks.new pts.new) }
{
    if starts(first, marks[usize::from(s)]) {
        return take_up(g, f, level, n, words, marks, pts, c, s);
    }
    c
}

// A chain from the first edge of each of the m segments in turn.
pub fn chain_all(
    g: Grid,
    f: &[f32],
    level: f32,
    n: usize,
    m: usize,
    words: &mut [u32],
    marks: &mut [u8],
    pts: &mut [f64],
    so: Count,
    first: bool,
) -> Count
    requires over { Over g (length f.now) }
    requires m_bound { m ≤ 2 * n }
    requires each { Each (Joins g) (segments_at n m words.old) }
    requires tracing { Tracing g n words.old marks.old pts.old so }
    ensures { AllStarted g f.now level n first m so (slices words.old marks.old pts.old) result (slices words.new marks.new pts.new) }
{
    let mut c = so;
    for k in 0..m {
        let s = edge_at(words, 2 * k);
        c = start_at(g, f, level, n, words, marks, pts, c, first, s);
    }
    c
}
