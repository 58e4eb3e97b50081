// The functions of `links`.
ghost use Rattle.std.specs.Prelude.{◌≡◌, ◌+◌, ◌*◌, ◌≤◌, ◌<◌, length};
ghost use Rattle.links.specs.Heap.{entry_at, Lent, Ordered, Pushed, Popped};
ghost use Rattle.geom.specs.Vec.{v2};
ghost use Rattle.raster.specs.Grid.{Over};
ghost use Rattle.links.specs.Path.{Fitted};
ghost use Rattle.abi.specs.Geom.{region};
ghost use Rattle.abi.specs.Raster.{grid};
ghost use Rattle.abi.specs.Setup.{plain};
ghost use Rattle.abi.specs.Links.{entry_of, popped_in, route_in, PathBy};

use super::of_setup::made;
use geom::region::Region;
use geom::vec2::Vec2;
use links::NodeNo;
use links::heap::Entry;
use links::link::Route;
use raster::grid::Grid;

#[unsafe(no_mangle)]
pub extern "C" fn links_push(ests: &mut [f64], nodes: &mut [u32], n: usize, est: f64, node: u32)
    requires lent { Lent ests.old nodes.old (n + 1) }
    requires ordered { Ordered (entry_at ests.old nodes.old) n }
    ensures { Pushed ests.old nodes.old n (entry_of est node) ests.new nodes.new }
{
    let e = Entry {
        est,
        node: NodeNo(node),
    };
    links::heap::push(ests, nodes, n, e);
}

// The first entry: its estimate goes to `est`, its node is the answer.
#[unsafe(no_mangle)]
pub extern "C" fn links_pop(ests: &mut [f64], nodes: &mut [u32], n: usize, est: &mut [f64]) -> u32
    requires n_nonzero { 0 < n }
    requires lent { Lent ests.old nodes.old n }
    requires ordered { Ordered (entry_at ests.old nodes.old) n }
    requires est_nonzero { 0 < length est.old }
    ensures { Popped ests.old nodes.old n (popped_in est.new result) ests.new nodes.new }
{
    let e = links::heap::pop(ests, nodes, n);
    est[0] = e.est;
    e.node.0
}

// Whether there is a way; `out` gets how many points it has, and the work.
fn put_route(r: Route, out: &mut [u64]) -> bool
    requires { 2 ≤ length out.old }
    ensures { route_in result out.new ≡ r }
{
    out[1] = r.work as u64;
    match r.points {
        Some(points) => {
            out[0] = points as u64;
            true
        }
        None => false,
    }
}

// Whether there is a way from a to b; its points are in the workspace, `out` gets how many and the work of
// the search. The workspace has its walls and the tool's tables.
#[unsafe(no_mangle)]
pub extern "C" fn links_link_path(
    ox: f64,
    oy: f64,
    cell: f64,
    nx: usize,
    ny: usize,
    vs: &[f64],
    lens: &[u32],
    at: usize,
    first: usize,
    loops: usize,
    r: f64,
    keep: f64,
    samples: usize,
    map: &[u8],
    allowed: &[u8],
    u: &mut [u32],
    w: &mut [f64],
    out: &mut [u64],
    ax: f64,
    ay: f64,
    bx: f64,
    by: f64,
) -> bool
    requires fitted { Fitted (plain (grid ox oy cell nx ny) (region at first loops) r keep samples) vs.now lens.now map.now w.old }
    requires over { Over (grid ox oy cell nx ny) (length allowed.now) }
    requires nx_in_bounds { 15 * (ny * nx) ≤ length u.old }
    requires in_bounds { 2 ≤ length out.old }
    ensures { PathBy (grid ox oy cell nx ny) (region at first loops) r keep samples vs.now lens.now map.now allowed.now w.old (v2 ax ay) (v2 bx by) (route_in result out.new) w.new }
{
    let origin = Vec2 { x: ox, y: oy };
    let g = Grid {
        origin,
        cell,
        nx,
        ny,
    };
    let s = made(g, Region { at, first, loops }, r, keep, samples);
    let a = Vec2 { x: ax, y: ay };
    let b = Vec2 { x: bx, y: by };
    put_route(
        links::link::link_path(s, vs, lens, map, allowed, u, w, a, b),
        out,
    )
}
