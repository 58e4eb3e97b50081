// Points in a lent slice: x and y of point k stand at 2 k and 2 k + 1. `region::vertex` reads one.
ghost use Rattle.std.specs.Prelude.{◌≡◌, ◌+◌, ◌*◌, ◌<◌, length};
ghost use Rattle.geom.specs.Points.{put_point};

use super::vec2::Vec2;

pub fn put(ps: &mut [f64], k: usize, p: Vec2)
    requires { 2 * k + 1 < length ps.old }
    ensures { ps.new ≡ put_point k p ps.old }
{
    let i = 2 * k;
    ps[i] = p.x;
    ps[i + 1] = p.y;
}
