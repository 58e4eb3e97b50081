// The radius of a helix.
ghost use Rattle.std.specs.Prelude.{◌≡◌, not};
ghost use Rattle.loops.specs.Loop.{any};
ghost use Rattle.setup.specs.Place.{Walls};
ghost use Rattle.events.specs.Replay.{rim_point};
ghost use Rattle.events.specs.Helix.{rim_blocked};
ghost use Rattle.helix.specs.Search.{bare_job, least_of, radius_at, radius_by};

use geom::vec2::Vec2;
use numbers::cast::float_of;
use numbers::circle::TAU;
use setup::Setup;

// Rim point k of 36.
fn rim_point(c: Vec2, radius: f64, k: usize) -> Vec2
    ensures { result ≡ rim_point c radius k }
{
    let v = Vec2::from_angle(TAU * float_of(k) / float_of(36));
    c.add(v.scale(radius))
}

// Whether the tool may be at all rim points.
fn rim_allowed(s: Setup, wall: &[f64], vs: &[f64], lens: &[u32], c: Vec2, radius: f64) -> bool
    requires { Walls s wall.now vs.now lens.now }
    ensures { result ≡ not (any (rim_blocked (bare_job s wall.now vs.now lens.now) c radius) 0 36) }
{
    for k in 0..36 {
        let p = rim_point(c, radius, k);
        if !setup::place::allowed_at(&s, wall, vs, lens, p) {
            return false;
        }
    }
    true
}

// The least radius.
fn least(s: Setup) -> f64
    ensures { result ≡ least_of s }
{
    0.1 * 2.0 * s.r
}

// From `widest` down the first radius whose rim points are all allowed. After 64 shrinks no more is tried.
pub fn radius_at(
    s: Setup,
    wall: &[f64],
    vs: &[f64],
    lens: &[u32],
    c: Vec2,
    widest: f64,
) -> Option<f64>
    requires { Walls s wall.now vs.now lens.now }
    ensures { radius_by result ≡ radius_at s wall.now vs.now lens.now c widest }
{
    let least = least(s);
    let mut radius = widest;
    for k in 0..65usize {
        if !(radius >= least) {
            return None;
        }
        if rim_allowed(s, wall, vs, lens, c, radius) {
            return Some(radius);
        }
        radius = radius * 0.8;
    }
    None
}
