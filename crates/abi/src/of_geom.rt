// The functions of `geom`. A vector goes in as two floats and comes back in two places of a lent slice.
ghost use Rattle.std.specs.Prelude.{◌≡◌, ◌+◌, ◌*◌, ◌≤◌, length};
ghost use Rattle.geom.specs.Vec.{v2, dot_of, cross_of, perp_of, distance_of, length_of, normalized_of, from_angle, lerp_of};
ghost use Rattle.geom.specs.Region.{Held, point_in_loop, contains_of, bounds_of};
ghost use Rattle.geom.specs.Segment.{seg_distance, any_within};
ghost use Rattle.abi.specs.Geom.{region, put2, put4};

use geom::region::Region;
use geom::vec2::Vec2;
use numbers::bound::Bound;

// Puts a vector into the first two places.
pub fn put(v: Vec2, out: &mut [f64])
    requires { 2 ≤ length out.old }
    ensures { out.new ≡ put2 v out.old }
{
    out[0] = v.x;
    out[1] = v.y;
}

#[unsafe(no_mangle)]
pub extern "C" fn geom_lerp(ax: f64, ay: f64, bx: f64, by: f64, t: f64, out: &mut [f64])
    requires { 2 ≤ length out.old }
    ensures { out.new ≡ put2 (lerp_of (v2 ax ay) (v2 bx by) t) out.old }
{
    let a = Vec2 { x: ax, y: ay };
    let b = Vec2 { x: bx, y: by };
    put(a.lerp(b, t), out);
}

#[unsafe(no_mangle)]
pub extern "C" fn geom_normalized(x: f64, y: f64, out: &mut [f64])
    requires { 2 ≤ length out.old }
    ensures { out.new ≡ put2 (normalized_of (v2 x y)) out.old }
{
    let a = Vec2 { x, y };
    put(a.normalized(), out);
}

#[unsafe(no_mangle)]
pub extern "C" fn geom_from_angle(a: f64, out: &mut [f64])
    requires { 2 ≤ length out.old }
    ensures { out.new ≡ put2 (from_angle a) out.old }
{
    put(Vec2::from_angle(a), out);
}

#[unsafe(no_mangle)]
pub extern "C" fn geom_perp(x: f64, y: f64, out: &mut [f64])
    requires { 2 ≤ length out.old }
    ensures { out.new ≡ put2 (perp_of (v2 x y)) out.old }
{
    let a = Vec2 { x, y };
    put(a.perp(), out);
}

#[unsafe(no_mangle)]
pub extern "C" fn geom_dot(ax: f64, ay: f64, bx: f64, by: f64) -> f64
    ensures { result ≡ dot_of (v2 ax ay) (v2 bx by) }
{
    let a = Vec2 { x: ax, y: ay };
    a.dot(Vec2 { x: bx, y: by })
}

#[unsafe(no_mangle)]
pub extern "C" fn geom_cross(ax: f64, ay: f64, bx: f64, by: f64) -> f64
    ensures { result ≡ cross_of (v2 ax ay) (v2 bx by) }
{
    let a = Vec2 { x: ax, y: ay };
    a.cross(Vec2 { x: bx, y: by })
}

#[unsafe(no_mangle)]
pub extern "C" fn geom_length(x: f64, y: f64) -> f64
    ensures { result ≡ length_of (v2 x y) }
{
    let a = Vec2 { x, y };
    a.length()
}

#[unsafe(no_mangle)]
pub extern "C" fn geom_distance(ax: f64, ay: f64, bx: f64, by: f64) -> f64
    ensures { result ≡ distance_of (v2 ax ay) (v2 bx by) }
{
    let a = Vec2 { x: ax, y: ay };
    a.distance(Vec2 { x: bx, y: by })
}

#[unsafe(no_mangle)]
pub extern "C" fn geom_seg_distance(px: f64, py: f64, ax: f64, ay: f64, bx: f64, by: f64) -> f64
    ensures { result ≡ seg_distance (v2 px py) (v2 ax ay) (v2 bx by) }
{
    let p = Vec2 { x: px, y: py };
    let a = Vec2 { x: ax, y: ay };
    let b = Vec2 { x: bx, y: by };
    geom::segment::seg_distance(p, a, b)
}

#[unsafe(no_mangle)]
pub extern "C" fn geom_point_in_loop(vs: &[f64], at: usize, n: usize, x: f64, y: f64) -> bool
    requires { 2 * (at + n) ≤ length vs.now }
    ensures { result ≡ point_in_loop vs.now at n (v2 x y) }
{
    geom::region::point_in_loop(vs, at, n, Vec2 { x, y })
}

#[unsafe(no_mangle)]
pub extern "C" fn geom_contains(
    vs: &[f64],
    lens: &[u32],
    at: usize,
    first: usize,
    loops: usize,
    x: f64,
    y: f64,
) -> bool
    requires { Held vs.now lens.now (region at first loops) }
    ensures { result ≡ contains_of vs.now lens.now (region at first loops) (v2 x y) }
{
    geom::region::contains(vs, lens, Region { at, first, loops }, Vec2 { x, y })
}

#[unsafe(no_mangle)]
pub extern "C" fn geom_any_within(
    vs: &[f64],
    lens: &[u32],
    at: usize,
    first: usize,
    loops: usize,
    x: f64,
    y: f64,
    r: f64,
) -> bool
    requires { Held vs.now lens.now (region at first loops) }
    ensures { result ≡ any_within vs.now lens.now (region at first loops) (v2 x y) r }
{
    geom::segment::any_within(
        vs,
        lens,
        Region { at, first, loops },
        Vec2 { x, y },
        Bound::of(r),
    )
}

#[unsafe(no_mangle)]
pub extern "C" fn geom_bounds(
    vs: &[f64],
    lens: &[u32],
    at: usize,
    first: usize,
    loops: usize,
    out: &mut [f64],
)
    requires held { Held vs.now lens.now (region at first loops) }
    requires in_bounds { 4 ≤ length out.old }
    ensures { out.new ≡ put4 (bounds_of vs.now lens.now (region at first loops)) out.old }
{
    let c = geom::region::bounds(vs, lens, Region { at, first, loops });
    let lo = c.lo;
    let hi = c.hi;
    out[0] = lo.x;
    out[1] = lo.y;
    out[2] = hi.x;
    out[3] = hi.y;
}
