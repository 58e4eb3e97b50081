// The distance of a point from a segment, and whether a region's boundary passes within r of it.
ghost use Rattle.std.specs.Prelude.{◌≡◌, ◌+◌, ◌*◌, ◌≤◌, ◌<◌, length};
ghost use Rattle.geom.specs.Region.{after, Held};
ghost use Rattle.geom.specs.Segment.{along, seg_square, seg_distance, edge_within, loop_within, any_within};

use super::region::{Region, sizes, vertex};
use super::vec2::Vec2;
use numbers::bound::Bound;

// How far along the segment its point nearest to p lies, from 0 to 1.
fn along_of(p: Vec2, a: Vec2, ab: Vec2) -> f64
    ensures { result ≡ along p a ab }
{
    let l2 = ab.dot(ab);
    if l2 < 1e-24 {
        0.0
    } else {
        numbers::order::clamp(p.sub(a).dot(ab) / l2, 0.0, 1.0)
    }
}

// The square of the distance from p to the segment.
fn seg_square(p: Vec2, a: Vec2, b: Vec2) -> f64
    ensures { result ≡ seg_square p a b }
{
    let ab = b.sub(a);
    let t = along_of(p, a, ab);
    a.add(ab.scale(t)).square(p)
}

pub fn seg_distance(p: Vec2, a: Vec2, b: Vec2) -> f64
    ensures { result ≡ seg_distance p a b }
{
    numbers::root::sqrt(seg_square(p, a, b))
}

// The vertex after vertex i of a loop of n.
pub fn next(n: usize, i: usize) -> usize
    requires { i < n }
    ensures { (result ≡ after n i) × (result < n) }
{
    if i + 1 == n { 0 } else { i + 1 }
}

// Whether the edge passes within r of p: where r has a bound, no root is taken.
fn edge_within(vs: &[f64], at: usize, n: usize, i: usize, p: Vec2, r: Bound) -> bool
    requires { (2 * (at + n) ≤ length vs.now) × (i < n) }
    ensures { result ≡ edge_within vs.now at n p r.r i }
{
    let a = vertex(vs, at + i);
    let b = vertex(vs, at + next(n, i));
    r.root_below(seg_square(p, a, b))
}

fn loop_within(vs: &[f64], at: usize, n: usize, p: Vec2, r: Bound) -> bool
    requires { 2 * (at + n) ≤ length vs.now }
    ensures { result ≡ loop_within vs.now at n p r.r }
{
    for i in 0..n {
        if edge_within(vs, at, n, i, p, r) {
            return true;
        }
    }
    false
}

// Whether some edge of the region passes within r of p.
pub fn any_within(vs: &[f64], lens: &[u32], g: Region, p: Vec2, r: Bound) -> bool
    requires { Held vs.now lens.now g }
    ensures { result ≡ any_within vs.now lens.now g p r.r }
{
    let mut at = g.at;
    for n in sizes(lens, g) {
        let n = *n as usize;
        if loop_within(vs, at, n, p, r) {
            return true;
        }
        at += n;
    }
    false
}
