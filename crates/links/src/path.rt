// The path back from the goal of a search, and its shortening. The wall distances, the path's points and
// the rim's directions are in the workspace's f64, where setup's layout has them.
ghost use Rattle.std.specs.Prelude.{◌≡◌, ◌+◌, ◌-◌, ◌*◌, ◌≤◌, ◌<◌, length};
ghost use Rattle.loops.specs.Frame.{Only};
ghost use Rattle.geom.specs.Region.{vertex_of};
ghost use Rattle.geom.specs.Points.{put_point, points};
ghost use Rattle.raster.specs.Grid.{Sides};
ghost use Rattle.rims.specs.Tiles.{Tiled};
ghost use Rattle.setup.specs.Layout.{path_end, path_from, rim_from};
ghost use Rattle.setup.specs.Place.{cells_of};
ghost use Rattle.links.specs.Lattice.{nodes};
ghost use Rattle.links.specs.Search.{Befores};
ghost use Rattle.links.specs.Path.{nodes_of, farthest_of, shorten_of, path_in, clear_in, Fitted, short_in};

use super::lattice::Net;
use super::straight::Ground;
use super::{NO_NODE, node_in};
use geom::points::put;
use geom::region::vertex;
use geom::vec2::Vec2;
use setup::{Setup, layout};

// Lays the centres of the path's nodes and then `to` up to point nodes - 1, from the end on; the first
// point's number.
pub fn lay(net: Net, before: &[u32], ps: &mut [f64], to: Vec2) -> usize
    requires before_len { length before.now ≡ nodes net.lattice }
    requires befores { Befores (nodes net.lattice) before.now }
    requires l_in_bounds { 2 * nodes net.lattice ≤ length ps.old }
    ensures ps_after { points result (nodes net.lattice - result) ps.new ≡ nodes_of net.lattice before.now to }
    ensures upper_bound { result < nodes net.lattice }
    ensures ps_len_unchanged { length ps.new ≡ length ps.old }
{
    let last = net.nodes() - 1;
    put(ps, last, to);
    // Goes by the nodes before; k is the place of a point, and only bounds the way.
    let mut k = last;
    let mut v = node_in(before, usize::from(net.lattice.goal));
    while 0 < k {
        if v == NO_NODE {
            return k;
        }
        if v == net.lattice.start {
            return k;
        }
        k = k - 1;
        put(ps, k, net.centre(v));
        v = node_in(before, usize::from(v));
    }
    k
}

// Whether a straight feed is clear, by the workspace's f64.
pub fn clear(
    s: Setup,
    vs: &[f64],
    lens: &[u32],
    map: &[u8],
    tiles: &[u8],
    w: &[f64],
    a: Vec2,
    b: Vec2,
) -> bool
    requires fitted { Fitted s vs.now lens.now map.now w.now }
    requires tiled { Tiled s.grid map.now tiles.now }
    ensures { result ≡ clear_in s vs.now lens.now map.now w.now a b }
{
    let n = layout::cells(s.grid);
    let rim = layout::rim(n);
    let end = layout::tables_end(n);
    let ground = Ground {
        setup: s,
        wall: &w[0..n],
        vs,
        lens,
        map,
        tiles,
        rim: &w[rim..end],
    };
    ground.link_clear(a, b)
}

// Point k of the path.
fn point(s: Setup, w: &[f64], k: usize) -> Vec2
    requires sides { Sides s.grid }
    requires s_in_bounds { rim_from (cells_of s) ≤ length w.now }
    requires k_bound { 2 * k + 1 < 3 * cells_of s }
    ensures { result ≡ vertex_of (path_in s w.now) k }
{
    let n = layout::cells(s.grid);
    let from = layout::path(n);
    let to = from + 3 * n;
    vertex(&w[from..to], k)
}

// The number of the farthest of the points from `first` on, before `end`, that is in straight view.
fn farthest(
    s: Setup,
    vs: &[f64],
    lens: &[u32],
    map: &[u8],
    tiles: &[u8],
    w: &[f64],
    here: Vec2,
    first: usize,
    end: usize,
) -> Option<usize>
    requires fitted { Fitted s vs.now lens.now map.now w.now }
    requires tiled { Tiled s.grid map.now tiles.now }
    requires first_le_end { first ≤ end }
    requires end_bound { 2 * end ≤ 3 * cells_of s }
    ensures { result ≡ farthest_of (clear_in s vs.now lens.now map.now w.now) (vertex_of (path_in s w.now)) here first (end - first) }
{
    for k in (first..end).rev() {
        let p = point(s, w, k);
        if clear(s, vs, lens, map, tiles, w, here, p) {
            return Some(k);
        }
    }
    None
}

// Keeps point p as point k of the path.
pub fn keep(s: Setup, w: &mut [f64], k: usize, p: Vec2)
    requires sides { Sides s.grid }
    requires s_in_bounds { rim_from (cells_of s) ≤ length w.old }
    requires k_bound { 2 * k + 1 < 3 * cells_of s }
    ensures w_after { path_in s w.new ≡ put_point k p (path_in s w.old) }
    ensures only { Only (path_from (cells_of s)) (path_end (cells_of s)) w.old w.new }
{
    let n = layout::cells(s.grid);
    let from = layout::path(n);
    let to = from + 3 * n;
    put(&mut w[from..to], k, p);
}

// Shortens the path of the points from `at` on, before `end`, in place: from each point on to the
// farthest in straight view. How many points it has then, if there is a way.
pub fn shorten(
    s: Setup,
    vs: &[f64],
    lens: &[u32],
    map: &[u8],
    tiles: &[u8],
    w: &mut [f64],
    from: Vec2,
    at: usize,
    end: usize,
) -> Option<usize>
    requires fitted { Fitted s vs.now lens.now map.now w.old }
    requires tiled { Tiled s.grid map.now tiles.now }
    requires at_le_end { at ≤ end }
    requires end_bound { 2 * end ≤ 3 * cells_of s }
    ensures w_after { short_in s result w.new ≡ shorten_of (clear_in s vs.now lens.now map.now w.old) (points at (end - at) (path_in s w.old)) from }
    ensures only { Only (path_from (cells_of s)) (path_end (cells_of s)) w.old w.new }
{
    // No range has these steps: each turn goes on behind the point in view.
    let mut here = from;
    let mut first = at;
    let mut kept = 0;
    while first < end {
        let f = farthest(s, vs, lens, map, tiles, w, here, first, end);
        let Some(k) = f else {
            return None;
        };
        here = point(s, w, k);
        keep(s, w, kept, here);
        kept = kept + 1;
        first = k + 1;
    }
    Some(kept)
}
