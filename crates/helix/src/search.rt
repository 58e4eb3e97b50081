// Place after place for a helix, given up where none fits.
ghost use Rattle.std.specs.Prelude.{◌≡◌, ◌*◌, ◌≤◌, length};
ghost use Rattle.setup.specs.Layout.{map_in, allowed_in};
ghost use Rattle.setup.specs.Place.{cells_of, Walls};
ghost use Rattle.workspace.specs.Standing.{reach_in, abandoned_in, abandoned_put};
ghost use Rattle.helix.specs.Search.{widest_of, attempt_of, gone_by, seek_of};

use super::radius::radius_at;
use flood::flood::flood;
use flood::place::farthest;
use geom::vec2::Vec2;
use raster::grid::{center, column_of, row_of};
use setup::Setup;

// A place tried: a radius fits there, or it is given up; or there is none.
#[derive(Clone, Copy)]
pub enum Attempt {
    Nothing,
    Fits(Vec2, f64),
    GivenUp(Vec2),
}

// The radius that is tried first at the distance d from the walls.
fn widest(s: Setup, pref: f64, d: f64) -> f64
    ensures { result ≡ widest_of s pref d }
{
    numbers::order::min(pref, d - s.keep.r - 2.0 * s.grid.cell)
}

// Tries the farthest place; the stack is for the flood.
fn try_place(
    s: Setup,
    wall: &[f64],
    vs: &[f64],
    lens: &[u32],
    pref: f64,
    b: &mut [u8],
    stack: &mut [u32],
) -> Attempt
    requires walls { Walls s wall.now vs.now lens.now }
    requires s_in_bounds { 8 * cells_of s ≤ length b.old }
    requires s_in_bounds_2 { 9 * cells_of s ≤ length stack.old }
    ensures value { result ≡ attempt_of s wall.now vs.now lens.now (allowed_in (cells_of s) b.old) (reach_in (cells_of s) b.old) pref (map_in (cells_of s) b.old) (abandoned_in (cells_of s) b.old) }
    ensures b_after { b.new ≡ abandoned_put (cells_of s) (gone_by s wall.now vs.now lens.now (allowed_in (cells_of s) b.old) (reach_in (cells_of s) b.old) pref result (map_in (cells_of s) b.old) (abandoned_in (cells_of s) b.old)) b.old }
{
    let g = s.grid;
    let Some(far) = farthest(b, wall, s.grid.ny * s.grid.nx) else {
        return Attempt::Nothing;
    };
    let c = far.cell;
    let p = center(g, column_of(g, c), row_of(g, c));
    let Some(radius) = radius_at(s, wall, vs, lens, p, widest(s, pref, far.distance)) else {
        flood(g, b, stack, c);
        return Attempt::GivenUp(p);
    };
    Attempt::Fits(p, radius)
}

// Centre and radius of a helix, if there is one, and how many places were given up before. At most 64 are tried.
pub fn find(
    s: Setup,
    wall: &[f64],
    vs: &[f64],
    lens: &[u32],
    pref: f64,
    b: &mut [u8],
    stack: &mut [u32],
) -> (Option<(Vec2, f64)>, usize)
    requires walls { Walls s wall.now vs.now lens.now }
    requires s_in_bounds { 8 * cells_of s ≤ length b.old }
    requires s_in_bounds_2 { 9 * cells_of s ≤ length stack.old }
    ensures value { result ≡ (seek_of s wall.now vs.now lens.now (allowed_in (cells_of s) b.old) (reach_in (cells_of s) b.old) pref (map_in (cells_of s) b.old) (abandoned_in (cells_of s) b.old)).found }
    ensures b_after { b.new ≡ abandoned_put (cells_of s) (seek_of s wall.now vs.now lens.now (allowed_in (cells_of s) b.old) (reach_in (cells_of s) b.old) pref (map_in (cells_of s) b.old) (abandoned_in (cells_of s) b.old)).gone b.old }
{
    for k in 0..64 {
        let a = try_place(s, wall, vs, lens, pref, b, stack);
        match a {
            Attempt::Nothing => return (None, k),
            Attempt::Fits(c, radius) => return (Some((c, radius)), k),
            Attempt::GivenUp(_) => {}
        }
    }
    (None, 64)
}
