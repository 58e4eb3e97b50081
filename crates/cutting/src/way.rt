// The way to a pass.
ghost use Rattle.std.specs.Prelude.{◌≡◌, ◌≤◌, length};
ghost use Rattle.loops.specs.Frame.{Only};
ghost use Rattle.raster.specs.Grid.{Over};
ghost use Rattle.setup.specs.Layout.{cost_from, path_end, segments_from};
ghost use Rattle.setup.specs.Place.{cells_of};
ghost use Rattle.links.specs.Path.{wall_in, Fitted};
ghost use Rattle.links.specs.Link.{linked_in};
ghost use Rattle.cutting.specs.Way.{route_of};

use geom::vec2::Vec2;
use links::link::{Route, link_path};
use setup::Setup;

// The way from `pos` to a point, its points laid in the workspace; none is looked for where the tool is
// nowhere or is not kept down.
pub fn way_to(
    s: Setup,
    vs: &[f64],
    lens: &[u32],
    map: &[u8],
    allowed: &[u8],
    u: &mut [u32],
    w: &mut [f64],
    pos: Option<Vec2>,
    to: Vec2,
) -> Route
    requires fitted { Fitted s vs.now lens.now map.now w.old }
    requires over { Over s.grid (length allowed.now) }
    requires s_in_bounds { segments_from (cells_of s) ≤ length u.old }
    ensures w_after { linked_in s result w.new ≡ route_of s (wall_in s w.old) vs.now lens.now map.now allowed.now pos to }
    ensures only { Only 0 (segments_from (cells_of s)) u.old u.new }
    ensures only_2 { Only (cost_from (cells_of s)) (path_end (cells_of s)) w.old w.new }
{
    let Some(p) = pos else {
        return Route {
            points: None,
            work: 0,
        };
    };
    if s.keep_down {
        return link_path(s, vs, lens, map, allowed, u, w, p, to);
    }
    Route {
        points: None,
        work: 0,
    }
}
