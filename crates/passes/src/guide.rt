// The guide of a pass, its points in a lent slice. Its start is bent out to the free side, so that the cut
// begins clear of the stock and joins the guide gradually.
ghost use Rattle.std.specs.Prelude.{◌≡◌, ◌&&◌, ◌+◌, ◌*◌, ◌/◌, ◌≤◌, ◌<◌, length, get_or};
ghost use Rattle.loops.specs.Regions.{within, put};
ghost use Rattle.geom.specs.Points.{points};
ghost use Rattle.raster.specs.Grid.{Over};
ghost use Rattle.setup.specs.Place.{Walls, allowed_at, free_at};
ghost use Rattle.passes.specs.Simulate.{nowhere};
ghost use Rattle.passes.specs.Guide.{path_length, length_so_far, bent_at, after_of, bent_of, far_of, choose_of, blend_of};
ghost use Rattle.passes.specs.Guide.{round_to, walk_of, flat, points_in, laid, blend_in, laid_in, is_some, Ahead};

use geom::region::vertex;
use geom::vec2::Vec2;
use numbers::circle::PI;
use setup::Setup;
use setup::place::bite_of;

// How a guide is bent: over what length, and how far out at its start.
#[derive(Clone, Copy)]
pub struct Blend {
    pub len: f64,
    pub far: f64,
}

// The guide's length.
fn total(guide: &[f64]) -> f64
    ensures { result ≡ path_length (points 0 (length guide.now / 2) guide.now) }
{
    let n = guide.len() / 2;
    let mut t = 0.0;
    for k in 1..n {
        let a = vertex(guide, k - 1);
        t = t + a.distance(vertex(guide, k));
    }
    t
}

// The length up to p, the point k, where it is s up to the point b before it.
fn along(k: usize, s: f64, b: Vec2, p: Vec2) -> f64
    ensures { result ≡ length_so_far k s b p }
{
    if 0 < k {
        return s + b.distance(p);
    }
    s
}

// The point after point k; the last one is its own.
fn after(guide: &[f64], k: usize) -> Vec2
    requires { 2 * k + 1 < length guide.now }
    ensures { result ≡ after_of (points 0 (length guide.now / 2) guide.now) k }
{
    if k + 1 < guide.len() / 2 {
        return vertex(guide, k + 1);
    }
    vertex(guide, k)
}

// Cosine blend: steepest halfway, tangent where it joins the guide.
fn bent(len: f64, far: f64, p: Vec2, a: Vec2, b: Vec2, s: f64) -> Vec2
    ensures { result ≡ bent_at len far p a b s }
{
    let t = a.sub(b).normalized();
    let c = numbers::circle::cos(PI * s / len);
    let left = t.perp().scale(far).scale(0.5);
    p.add(left.scale(1.0 + c))
}

// Where the bent guide begins.
fn first_bent(guide: &[f64], len: f64, far: f64) -> Vec2
    requires { 2 ≤ length guide.now }
    ensures { result ≡ get_or (bent_of len far (points 0 (length guide.now / 2) guide.now)) 0 nowhere }
{
    let p = vertex(guide, 0);
    if 0.0 >= len {
        return p;
    }
    bent(len, far, p, after(guide, 0), p, 0.0)
}

// The tool may be at q, and touches no stock there.
fn starts_at(s: Setup, wall: &[f64], vs: &[f64], lens: &[u32], map: &[u8], q: Vec2) -> bool
    requires walls { Walls s wall.now vs.now lens.now }
    requires over { Over s.grid (length map.now) }
    ensures { result ≡ (allowed_at s wall.now vs.now lens.now q && free_at s map.now q) }
{
    if setup::place::allowed_at(&s, wall, vs, lens, q) {
        return setup::place::free(s, map, q);
    }
    false
}

fn far_of(cell: f64, r: f64, bite: f64, k: usize) -> f64
    ensures { result ≡ far_of cell r bite k }
{
    if k == 0 {
        return bite + 2.0 * cell;
    }
    if k == 1 {
        return 2.0 * bite + 3.0 * cell;
    }
    0.5 * r + bite
}

// The first of three ways out at whose start the tool may be and touches no stock.
pub fn choose(
    s: Setup,
    wall: &[f64],
    vs: &[f64],
    lens: &[u32],
    map: &[u8],
    guide: &[f64],
) -> Option<Blend>
    requires walls { Walls s wall.now vs.now lens.now }
    requires over { Over s.grid (length map.now) }
    requires in_bounds { 2 ≤ length guide.now }
    ensures { result ≡ choose_of s (allowed_at s wall.now vs.now lens.now) (free_at s map.now) (points 0 (length guide.now / 2) guide.now) }
{
    let g = s.grid;
    let cell = g.cell;
    let r = s.r;
    let len = numbers::order::min(3.0 * r, 0.5 * total(guide));
    if len <= cell {
        return None;
    }
    let bite = bite_of(s);
    for k in 0..3usize {
        let far = far_of(cell, r, bite, k);
        let q = first_bent(guide, len, far);
        if starts_at(s, wall, vs, lens, map, q) {
            return Some(Blend { len, far });
        }
    }
    None
}

// Bends the guide, in its place.
pub fn bend(guide: &mut [f64], len: f64, far: f64)
    requires { 2 ≤ length guide.old }
    ensures guide_len_unchanged { length guide.new ≡ length guide.old }
    ensures guide_after { points 0 (length guide.old / 2) guide.new ≡ bent_of len far (points 0 (length guide.old / 2) guide.old) }
{
    let n = guide.len() / 2;
    let mut s = 0.0;
    let mut b = vertex(guide, 0);
    for k in 0..n {
        let p = vertex(guide, k);
        s = along(k, s, b, p);
        if s >= len {
            return;
        }
        let q = bent(len, far, p, after(guide, k), b, s);
        geom::points::put(guide, k, q);
        b = p;
    }
}

// The number of the point j places from the first, round.
fn round_to(m: usize, j: usize) -> usize
    ensures { result ≡ round_to m j }
{
    if j < m {
        return j;
    }
    j - m
}

// Lays n points at `to`: those of the piece of m points at `from`, from its point `start` on, round.
pub fn walk(w: &mut [f64], from: usize, m: usize, start: usize, n: usize, to: usize)
    requires { Ahead from m start n to (length w.old) }
    ensures { w.new ≡ put to (to + 2 * n) (flat (walk_of (points_in from m w.old) start n)) w.old }
{
    for i in 0..n {
        let j = round_to(m, start + i);
        let a = from + 2 * j;
        let x = w[a];
        let y = w[a + 1];
        let b = to + 2 * i;
        w[b] = x;
        w[b + 1] = y;
    }
}

// The guide of m points at `at`, its start bent out; not where no way out serves. Wall distances are the
// first `cells` of the workspace.
pub fn blend_in(
    s: Setup,
    vs: &[f64],
    lens: &[u32],
    map: &[u8],
    w: &mut [f64],
    cells: usize,
    at: usize,
    m: usize,
) -> bool
    requires walls { Walls s (within 0 cells w.old) vs.now lens.now }
    requires over { Over s.grid (length map.now) }
    requires cells_in_bounds { cells ≤ length w.old }
    requires m_in_bounds { at + 2 * m ≤ length w.old }
    requires le_m { 1 ≤ m }
    ensures value { result ≡ is_some (blend_of s (allowed_at s (within 0 cells w.old) vs.now lens.now) (free_at s map.now) (points_in at m w.old)) }
    ensures w_after { w.new ≡ laid at m (blend_of s (allowed_at s (within 0 cells w.old) vs.now lens.now) (free_at s map.now) (points_in at m w.old)) w.old }
{
    let e = at + 2 * m;
    let b = choose(s, &w[0..cells], vs, lens, map, &w[at..e]);
    let Some(blend) = b else {
        return false;
    };
    bend(&mut w[at..e], blend.len, blend.far);
    true
}

// The guide of n points at `at` for the piece of m points at `from`, walked from its point `start` on and
// bent out at its start; not where no way out serves.
pub fn lay_guide(
    s: Setup,
    vs: &[f64],
    lens: &[u32],
    map: &[u8],
    w: &mut [f64],
    cells: usize,
    from: usize,
    m: usize,
    start: usize,
    n: usize,
    at: usize,
) -> bool
    requires walls { Walls s (within 0 cells w.old) vs.now lens.now }
    requires over { Over s.grid (length map.now) }
    requires ahead { Ahead from m start n at (length w.old) }
    requires cells_le_at { cells ≤ at }
    requires le_n { 1 ≤ n }
    ensures value { result ≡ is_some (blend_in s vs.now lens.now map.now cells from m start n w.old) }
    ensures w_after { w.new ≡ laid_in s vs.now lens.now map.now cells from m start n at w.old }
{
    walk(w, from, m, start, n, at);
    blend_in(s, vs, lens, map, w, cells, at, n)
}
