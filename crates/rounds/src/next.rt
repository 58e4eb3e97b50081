// Which piece is cut next: the nearest to the tool, of equally near ones the one with more points, of such the earlier.
ghost use Rattle.std.specs.Prelude.{◌≡◌, false, ◌+◌, ◌*◌, ◌≤◌, ◌<◌, length};
ghost use Rattle.std.specs.Float.{inf};
ghost use Rattle.loops.specs.Each.{over};
ghost use Rattle.loops.specs.Least.{then_by};
ghost use Rattle.geom.specs.Points.{points};
ghost use Rattle.pieces.specs.Piece.{row_at, piece_of, pieces_at};
ghost use Rattle.rounds.specs.Next.{here_of, closer, piece_far, candidate_of, longer, earlier, comes_before, next_of, Read, Readable};

use geom::region::vertex;
use geom::vec2::Vec2;
use numbers::order::min;
use passes::start::is_nearer;
use pieces::row::{Row, row_at};

// What a piece is chosen by; `at` is its number.
#[derive(Clone, Copy)]
pub struct Candidate {
    pub far: f64,
    pub points: u32,
    pub at: usize,
}

// Where distances are measured from; the origin while the tool is nowhere.
pub fn here(pos: Option<Vec2>) -> Vec2
    ensures { result ≡ here_of pos }
{
    pos.unwrap_or(Vec2 { x: 0.0, y: 0.0 })
}

// How far the nearest of n points is.
fn least(pts: &[f64], first: usize, n: usize, to: Vec2) -> f64
    requires { 2 * (first + n) ≤ length pts.now }
    ensures { result ≡ over (closer to) (points first n pts.now) (inf false) }
{
    let mut so = f64::from_bits(0x7ff0_0000_0000_0000);
    for k in 0..n {
        so = min(so, vertex(pts, first + k).distance(to));
    }
    so
}

// How far a piece is: a closed one as its nearest point, an open one as its first.
fn far(pts: &[f64], r: Row, to: Vec2) -> f64
    requires { Read r pts.now }
    ensures { result ≡ piece_far (piece_of r pts.now) to }
{
    let first = r.first as usize;
    if r.closed {
        return least(pts, first, r.points as usize, to);
    }
    vertex(pts, first).distance(to)
}

// What row k's piece is chosen by.
fn candidate_at(rows: &[u32], pts: &[f64], k: usize, to: Vec2) -> Candidate
    requires k_in_bounds { 3 * k + 2 < length rows.now }
    requires read { Read (row_at rows.now k) pts.now }
    ensures { result ≡ candidate_of (piece_of (row_at rows.now k) pts.now) to k }
{
    let r = row_at(rows, k);
    Candidate {
        far: far(pts, r, to),
        points: r.points,
        at: k,
    }
}

// Whether a comes before b where they are equally near: it has more points, or as many and is the earlier.
fn ahead(a: Candidate, b: Candidate) -> bool
    ensures { result ≡ then_by longer earlier a b }
{
    if a.points == b.points {
        return a.at < b.at;
    }
    a.points > b.points
}

fn comes_before(a: Candidate, b: Candidate) -> bool
    ensures { result ≡ comes_before a b }
{
    if is_nearer(a.far, b.far) {
        return true;
    }
    if is_nearer(b.far, a.far) {
        return false;
    }
    ahead(a, b)
}

// The number of the piece that comes before all others of the first m rows.
pub fn nearest(rows: &[u32], pts: &[f64], m: usize, to: Vec2) -> usize
    requires readable { Readable m rows.now pts.now }
    requires le_m { 1 ≤ m }
    ensures { result ≡ next_of (pieces_at m rows.now pts.now) to }
{
    let mut best = candidate_at(rows, pts, 0, to);
    for k in 1..m {
        let c = candidate_at(rows, pts, k, to);
        if comes_before(c, best) {
            best = c;
        }
    }
    best.at
}
