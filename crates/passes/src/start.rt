// Where a pass starts on its piece, whose points are in a lent slice: a closed piece at the point nearest
// to the tool, then at others round it.
ghost use Rattle.std.specs.Prelude.{◌≡◌, ◌+◌, ◌*◌, ◌/◌, ◌≤◌, ◌<◌, length};
ghost use Rattle.geom.specs.Points.{points};
ghost use Rattle.setup.specs.Layout.{most};
ghost use Rattle.passes.specs.Start.{is_greater, is_nearer, nearer, nearest_of, near_of, start_of};

use geom::region::vertex;
use geom::vec2::Vec2;
use numbers::order::total_cmp;
use std::cmp::Ordering;

// A point's number, and how far it is.
#[derive(Clone, Copy)]
struct Near {
    at: usize,
    far: f64,
}

fn greater(o: Ordering) -> bool
    ensures { result ≡ is_greater o }
{
    match o {
        Ordering::Less => false,
        Ordering::Equal => false,
        Ordering::Greater => true,
    }
}

// Whether x is less than y in the total order.
pub fn is_nearer(x: f64, y: f64) -> bool
    ensures { result ≡ is_nearer x y }
{
    greater(total_cmp(y, x))
}

// Of two the first, unless the second is nearer.
fn nearer(b: Near, k: usize, d: f64) -> Near
    ensures { result ≡ nearer b k d }
{
    if is_nearer(d, b.far) {
        return Near { at: k, far: d };
    }
    b
}

// The point nearest to p, the first on a tie.
fn nearest(piece: &[f64], p: Vec2) -> usize
    requires { 2 ≤ length piece.now }
    ensures { result ≡ nearest_of (points 0 (length piece.now / 2) piece.now) p }
{
    let n = piece.len() / 2;
    let d = vertex(piece, 0).distance(p);
    let mut best = Near { at: 0, far: d };
    for k in 1..n {
        let far = vertex(piece, k).distance(p);
        best = nearer(best, k, far);
    }
    best.at
}

// `pos` is where the tool is; at first it is nowhere.
pub fn near_start(piece: &[f64], pos: Option<Vec2>) -> usize
    requires { 2 ≤ length piece.now }
    ensures { result ≡ near_of (points 0 (length piece.now / 2) piece.now) pos }
{
    let Some(p) = pos else {
        return 0;
    };
    nearest(piece, p)
}

// The kth of four starts round a piece of n points.
pub fn start_of(near: usize, n: usize, k: usize) -> usize
    requires near_lt_n { near < n }
    requires n_bound { n ≤ 2 * most }
    requires k_bound { k < 4 }
    ensures { result ≡ start_of near n k }
{
    (near + k * n / 4) % n
}
