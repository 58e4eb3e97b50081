// A way of straight feeds through cleared space: straight, or over the lattice.
ghost use Rattle.std.specs.Prelude.{◌≡◌, ◌*◌, ◌≤◌, length};
ghost use Rattle.loops.specs.Frame.{Only};
ghost use Rattle.distance.specs.Nearest.{squares_of};
ghost use Rattle.dilation.specs.Window.{Takes};
ghost use Rattle.raster.specs.Grid.{Over};
ghost use Rattle.rims.specs.Tiles.{Tiled};
ghost use Rattle.setup.specs.Layout.{before_from, cost_from, path_end, path_from, segments_from};
ghost use Rattle.setup.specs.Place.{cells_of};
ghost use Rattle.links.specs.Lattice.{nodes, Telling};
ghost use Rattle.links.specs.Search.{seek_of, cells, Befores, outcome_in};
ghost use Rattle.links.specs.Path.{nodes_of, shorten_of, wall_in, clear_in, Fitted, short_in};
ghost use Rattle.links.specs.Link.{around_of, link_path, linked_in, before_in};

use super::lattice::Net;
use super::search::{Seeker, Sought};
use dilation::window::{Bounds, Window};
use geom::vec2::Vec2;
use setup::{Setup, layout};

// How many points a way has, if there is one, and the work of its search.
#[derive(Clone, Copy)]
pub struct Route {
    pub points: Option<usize>,
    pub work: usize,
}

// By a dilation of stock that tells only the rows of nodes, and the last.
fn shade_nodes(net: Net, far: u32, map: &[u8], work: &mut [u32])
    requires takes { Takes net.limit far }
    requires over { Over net.lattice.grid (length map.now) }
    requires l_in_bounds { cells net.lattice ≤ length work.old }
    ensures telling { Telling net.lattice (squares_of 1 map.now net.lattice.grid.nx net.lattice.grid.ny) work.new }
    ensures work_len_unchanged { length work.new ≡ length work.old }
{
    let l = net.lattice;
    let w = Window {
        lo: 0,
        hi: l.grid.ny,
        left: 0,
        right: l.grid.nx,
    };
    let b = Bounds { near: 0, far };
    dilation::window::shade(map, l.grid.nx, w, l.k, l.k / 2, b, work);
}

// Words that tell the nodes as the squares of the distance to stock do: a dilation's, where it takes the limit.
fn tell_nodes(net: Net, map: &[u8], work: &mut [u32])
    requires over { Over net.lattice.grid (length map.now) }
    requires l_in_bounds { before_from (cells net.lattice) ≤ length work.old }
    ensures telling { Telling net.lattice (squares_of 1 map.now net.lattice.grid.nx net.lattice.grid.ny) work.new }
    ensures work_len_unchanged { length work.new ≡ length work.old }
{
    if let Some(far) = dilation::window::bound(net.limit) {
        shade_nodes(net, far, map, work);
        return;
    }
    let g = net.lattice.grid;
    distance::transform(map, 1, g.nx, g.ny, work);
}

// What tells the nodes, then the search.
fn search(net: Net, map: &[u8], allowed: &[u8], u: &mut [u32], costs: &mut [f64]) -> Sought
    requires over { Over net.lattice.grid (length map.now) }
    requires over_2 { Over net.lattice.grid (length allowed.now) }
    requires l_in_bounds { segments_from (cells net.lattice) ≤ length u.old }
    requires l_in_bounds_2 { 10 * cells net.lattice ≤ length costs.old }
    ensures u_after { outcome_in net.lattice result u.new ≡ seek_of net.lattice allowed.now (squares_of 1 map.now net.lattice.grid.nx net.lattice.grid.ny) }
    ensures only { Only 0 (segments_from (cells net.lattice)) u.old u.new }
    ensures costs_len_unchanged { length costs.new ≡ length costs.old }
{
    let end = layout::before(layout::cells(net.lattice.grid));
    tell_nodes(net, map, &mut u[0..end]);
    Seeker { net, allowed }.seek(u, costs)
}

// The path of a search that reached the goal, laid and shortened.
fn trace(
    s: Setup,
    vs: &[f64],
    lens: &[u32],
    map: &[u8],
    tiles: &[u8],
    u: &[u32],
    w: &mut [f64],
    net: Net,
    from: Vec2,
    to: Vec2,
) -> Option<usize>
    requires fitted { Fitted s vs.now lens.now map.now w.old }
    requires tiled { Tiled s.grid map.now tiles.now }
    requires grid_value { net.lattice.grid ≡ s.grid }
    requires l_in_bounds { segments_from (cells net.lattice) ≤ length u.now }
    requires befores { Befores (nodes net.lattice) (before_in net.lattice u.now) }
    ensures w_after { short_in s result w.new ≡ shorten_of (clear_in s vs.now lens.now map.now w.old) (nodes_of net.lattice (before_in net.lattice u.now) to) from }
    ensures only { Only (path_from (cells_of s)) (path_end (cells_of s)) w.old w.new }
{
    let n = net.nodes();
    let first = layout::before(layout::cells(net.lattice.grid));
    let last = first + n;
    let size = layout::cells(s.grid);
    let a = layout::path(size);
    let e = a + 3 * size;
    let k = super::path::lay(net, &u[first..last], &mut w[a..e], to);
    super::path::shorten(s, vs, lens, map, tiles, w, from, k, n)
}

// The way over the lattice.
fn around(
    s: Setup,
    vs: &[f64],
    lens: &[u32],
    map: &[u8],
    tiles: &[u8],
    allowed: &[u8],
    u: &mut [u32],
    w: &mut [f64],
    net: Net,
    from: Vec2,
    to: Vec2,
) -> Route
    requires fitted { Fitted s vs.now lens.now map.now w.old }
    requires tiled { Tiled s.grid map.now tiles.now }
    requires grid_value { net.lattice.grid ≡ s.grid }
    requires over { Over s.grid (length allowed.now) }
    requires s_in_bounds { segments_from (cells_of s) ≤ length u.old }
    ensures w_after { linked_in s result w.new ≡ around_of s (wall_in s w.old) vs.now lens.now map.now allowed.now from to net.lattice }
    ensures only { Only 0 (segments_from (cells_of s)) u.old u.new }
    ensures only_2 { Only (cost_from (cells_of s)) (path_end (cells_of s)) w.old w.new }
{
    let n = layout::cells(s.grid);
    let a = layout::cost(n);
    let e = layout::path(n);
    let o = search(net, map, allowed, u, &mut w[a..e]);
    let work = o.expanded * 8;
    if !o.found {
        return Route { points: None, work };
    }
    let points = trace(s, vs, lens, map, tiles, u, w, net, from, to);
    Route { points, work }
}

// The path's points are laid in the workspace: u is the search's, of w its parts for the search and the
// path are written.
pub fn link_path(
    s: Setup,
    vs: &[f64],
    lens: &[u32],
    map: &[u8],
    allowed: &[u8],
    u: &mut [u32],
    w: &mut [f64],
    from: Vec2,
    to: Vec2,
) -> Route
    requires fitted { Fitted s vs.now lens.now map.now w.old }
    requires over { Over s.grid (length allowed.now) }
    requires s_in_bounds { segments_from (cells_of s) ≤ length u.old }
    ensures w_after { linked_in s result w.new ≡ link_path s (wall_in s w.old) vs.now lens.now map.now allowed.now from to }
    ensures only { Only 0 (segments_from (cells_of s)) u.old u.new }
    ensures only_2 { Only (cost_from (cells_of s)) (path_end (cells_of s)) w.old w.new }
{
    let mut tiles = [0u8; 20480];
    rims::tiles::fill(s.grid, map, &mut tiles);
    if super::path::clear(s, vs, lens, map, &tiles, w, from, to) {
        super::path::keep(s, w, 0, to);
        return Route {
            points: Some(1),
            work: 0,
        };
    }
    let g = s.grid;
    let x = raster::grid::cell_of(g, from);
    let Some((i, j)) = x else {
        return Route {
            points: None,
            work: 0,
        };
    };
    let z = raster::grid::cell_of(g, to);
    let Some((p, q)) = z else {
        return Route {
            points: None,
            work: 0,
        };
    };
    let net = Net::of(s, i, j, p, q);
    around(s, vs, lens, map, &tiles, allowed, u, w, net, from, to)
}
