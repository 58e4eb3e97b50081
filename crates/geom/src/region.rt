// Loops and regions over lent vertices: x and y of each vertex in one slice, the loops' lengths in
// another. A region is a run of loops, the outer one first, then the islands.
ghost use Rattle.std.specs.Prelude.{◌≡◌, ℕ, ◌+◌, ◌*◌, ◌≤◌, ◌<◌, length, get_or};
ghost use Rattle.geom.specs.Region.{vertex_of, straddles_of, crossing_of, turned, point_in_loop, in_island, contains_of, Held, size_of, widened, loop_bounds, bounds_of};

use super::vec2::Vec2;

// `at` is its first vertex, `first` the place of its first loop's length.
#[derive(Clone, Copy)]
pub struct Region {
    pub at: usize,
    pub first: usize,
    pub loops: usize,
}

#[derive(Clone, Copy)]
pub struct Corners {
    pub lo: Vec2,
    pub hi: Vec2,
}

pub fn vertex(vs: &[f64], k: usize) -> Vec2
    requires { 2 * k + 1 < length vs.now }
    ensures { result ≡ vertex_of vs.now k }
{
    let i = 2 * k;
    Vec2 {
        x: vs[i],
        y: vs[i + 1],
    }
}

// Whether the edge from a to b passes from one side of the row y to the other.
pub fn straddles(a: Vec2, b: Vec2, y: f64) -> bool
    ensures { result ≡ straddles_of a b y }
{
    (a.y > y) != (b.y > y)
}

// Where it does.
pub fn crossing(a: Vec2, b: Vec2, y: f64) -> f64
    ensures { result ≡ crossing_of a b y }
{
    a.x + (y - a.y) / (b.y - a.y) * (b.x - a.x)
}

// An edge that crosses the row of p to its right turns the answer round.
fn turn(p: Vec2, a: Vec2, b: Vec2, inside: bool) -> bool
    ensures { result ≡ turned p a b inside }
{
    if straddles(a, b, p.y) {
        if p.x < crossing(a, b, p.y) {
            return !inside;
        }
    }
    inside
}

// Even-odd: whether p is inside the loop of the n vertices from `at` on.
pub fn point_in_loop(vs: &[f64], at: usize, n: usize, p: Vec2) -> bool
    requires { 2 * (at + n) ≤ length vs.now }
    ensures { result ≡ point_in_loop vs.now at n p }
{
    if n == 0 {
        return false;
    }
    let mut inside = false;
    let mut b = vertex(vs, at + n - 1);
    for i in 0..n {
        let a = vertex(vs, at + i);
        inside = turn(p, a, b, inside);
        b = a;
    }
    inside
}

// A loop's length.
pub fn size(lens: &[u32], l: usize) -> usize
    requires { l < length lens.now }
    ensures { result ≡ get_or lens.now l 0 }
{
    lens[l] as usize
}

// The lengths of a region's loops.
pub fn sizes(lens: &[u32], g: Region) -> &[u32]
    requires { g.first + g.loops ≤ length lens.now }
    ensures count { length result.now ≡ g.loops }
    ensures each { (l : ℕ) → l < g.loops → get_or result.now l 0 ≡ size_of lens.now g l }
{
    let first = g.first;
    let end = first + g.loops;
    &lens[first..end]
}

// Whether p is inside an island.
fn in_island(vs: &[f64], lens: &[u32], g: Region, p: Vec2) -> bool
    requires { Held vs.now lens.now g }
    ensures { result ≡ in_island vs.now lens.now g p }
{
    let loops = sizes(lens, g);
    let mut at = g.at + loops[0] as usize;
    for n in &loops[1..] {
        let n = *n as usize;
        if point_in_loop(vs, at, n, p) {
            return true;
        }
        at += n;
    }
    false
}

// In the outer loop and in no island.
pub fn contains(vs: &[f64], lens: &[u32], g: Region, p: Vec2) -> bool
    requires { Held vs.now lens.now g }
    ensures { result ≡ contains_of vs.now lens.now g p }
{
    if point_in_loop(vs, g.at, size(lens, g.first), p) {
        !in_island(vs, lens, g, p)
    } else {
        false
    }
}

// The corners, brought out to hold p.
fn widen(c: Corners, p: Vec2) -> Corners
    ensures { result ≡ widened p c }
{
    let lo = c.lo;
    let hi = c.hi;
    let x0 = numbers::order::min(lo.x, p.x);
    let y0 = numbers::order::min(lo.y, p.y);
    let x1 = numbers::order::max(hi.x, p.x);
    let y1 = numbers::order::max(hi.y, p.y);
    Corners {
        lo: Vec2 { x: x0, y: y0 },
        hi: Vec2 { x: x1, y: y1 },
    }
}

fn loop_bounds(vs: &[f64], at: usize, n: usize) -> Corners
    requires { 2 * (at + n) ≤ length vs.now }
    ensures { result ≡ loop_bounds vs.now at n }
{
    let top = f64::from_bits(0x7ff0_0000_0000_0000);
    let mut c = Corners {
        lo: Vec2 { x: top, y: top },
        hi: Vec2 { x: -top, y: -top },
    };
    for i in 0..n {
        c = widen(c, vertex(vs, at + i));
    }
    c
}

// The corners of the outer loop.
pub fn bounds(vs: &[f64], lens: &[u32], g: Region) -> Corners
    requires { Held vs.now lens.now g }
    ensures { result ≡ bounds_of vs.now lens.now g }
{
    loop_bounds(vs, g.at, size(lens, g.first))
}
