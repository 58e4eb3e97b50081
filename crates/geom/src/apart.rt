// Whether a region's boundary stays r or more away from every point of a box. Told by how the box lies to
// the ends of each edge, by operations that rise alone, so that no rounding has to be reckoned with.
ghost use Rattle.std.specs.Prelude.{◌≡◌, true, ◌+◌, ◌*◌, ◌≤◌, ◌<◌, length};
ghost use Rattle.geom.specs.Region.{Held};
ghost use Rattle.geom.specs.Segment.{edge_within, loop_within, any_within};
ghost use Rattle.geom.specs.Apart.{Rooted, Apart, beyond_of};

use super::region::{Corners, Region, sizes, vertex};
use super::segment::next;

// Whether the distance of two points that are r apart along one axis comes out not below r. Asked once,
// before the boxes.
pub fn is_rooted(r: f64) -> bool
    ensures { result ≡ true → Rooted r }
{
    (0.0 < r) & (r <= numbers::root::sqrt(r * r + 0.0))
}

// Whether both ends, s and e, lie r or more above lo..hi, or both below it.
fn is_beyond(s: f64, e: f64, lo: f64, hi: f64, r: f64) -> bool
    ensures { result ≡ beyond_of s e lo hi r }
{
    let above = (r <= s - hi) & (r <= e - hi);
    let below = (s - lo <= -r) & (e - lo <= -r);
    above | below
}

// Whether the edge stays r or more away from every point of the box. Its ends are reckoned as the points
// between them are, so that they keep their order.
fn edge_apart(vs: &[f64], at: usize, n: usize, i: usize, c: Corners, r: f64) -> bool
    requires n_in_bounds { (2 * (at + n) ≤ length vs.now) × (i < n) }
    requires rooted { Rooted r }
    ensures { result ≡ true → Apart c (λ p. edge_within vs.now at n p r i) }
{
    let a = vertex(vs, at + i);
    let b = vertex(vs, at + next(n, i));
    let s = a.lerp(b, 0.0);
    let e = a.lerp(b, 1.0);
    let lo = c.lo;
    let hi = c.hi;
    is_beyond(s.x, e.x, lo.x, hi.x, r) | is_beyond(s.y, e.y, lo.y, hi.y, r)
}

// No walk with a closure serves here and in `segment`: one answers by an equation, the other stops at a no that
// says nothing, and the clauses of such a walk are longer than both loops.
fn loop_apart(vs: &[f64], at: usize, n: usize, c: Corners, r: f64) -> bool
    requires n_in_bounds { 2 * (at + n) ≤ length vs.now }
    requires rooted { Rooted r }
    ensures { result ≡ true → Apart c (λ p. loop_within vs.now at n p r) }
{
    for i in 0..n {
        if !edge_apart(vs, at, n, i, c, r) {
            return false;
        }
    }
    true
}

// Whether no edge of the region passes within r of a point of the box. A no may only say that the box
// does not tell.
pub fn all_apart(vs: &[f64], lens: &[u32], g: Region, c: Corners, r: f64) -> bool
    requires held { Held vs.now lens.now g }
    requires rooted { Rooted r }
    ensures { result ≡ true → Apart c (λ p. any_within vs.now lens.now g p r) }
{
    let loops = sizes(lens, g);
    let mut at = g.at;
    for n in loops {
        let n = *n as usize;
        if !loop_apart(vs, at, n, c, r) {
            return false;
        }
        at += n;
    }
    true
}
