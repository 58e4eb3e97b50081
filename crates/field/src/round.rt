// The field of a round in the workspace, and the ring along the boundary of where the tool may go.
ghost use Rattle.std.specs.Prelude.{◌≡◌, cond, ◌*◌, ◌≤◌, length, replicate};
ghost use Rattle.std.specs.Float.{nan};
ghost use Rattle.distance.specs.Nearest.{listed};
ghost use Rattle.raster.specs.Grid.{Sides};
ghost use Rattle.setup.specs.Layout.{dirty_put, field_put};
ghost use Rattle.field.specs.Field.{ring_at};
ghost use Rattle.field.specs.Round.{Ready, Rowed, Done};

use super::gauge::{Gauge, gauge_of};
use super::rows::field_rows;
use super::squares::{measure, wanted_window};
use dilation::window::Window;
use raster::grid::Grid;
use setup::{Setup, layout};

// What the rows start from.
fn begin(g: Grid, all: bool, f: &mut [f32])
    requires sides { Sides g }
    requires nx_in_bounds { g.ny * g.nx ≤ length f.old }
    ensures { f.new ≡ cond all (field_put (g.ny * g.nx) (replicate (g.ny * g.nx) nan) f.old) f.old }
{
    if all {
        let n = layout::cells(g);
        // nothing is known of any cell
        f[0..n].fill(0.0 / 0.0);
    }
}

fn clear_dirty(g: Grid, b: &mut [u8])
    requires sides { Sides g }
    requires nx_in_bounds { 5 * (g.ny * g.nx) ≤ length b.old }
    ensures { b.new ≡ dirty_put (g.ny * g.nx) (replicate (g.ny * g.nx) 0) b.old }
{
    let n = layout::cells(g);
    let a = layout::dirty(n);
    let e = a + n;
    b[a..e].fill(0);
}

// The cells of a window, over the workspace's regions.
fn rows(g: Gauge, x: Window, b: &[u8], u: &[u32], w: &[f64], f: &mut [f32]) -> usize
    requires ready { Ready g.setup b.now u.now w.now f.old }
    requires left_le_nx { x.left ≤ g.setup.grid.nx }
    ensures { Rowed g.setup g.all x b.now u.now f.old result f.new }
{
    let n = layout::cells(g.setup.grid);
    let a = layout::allowed(n);
    let c = a + n;
    let d = layout::near(n);
    let e = d + n;
    let r = layout::rim(n);
    let t = r + (8 * n + 8192);
    field_rows(
        g,
        x,
        &b[0..n],
        &b[a..c],
        &u[0..n],
        &u[d..e],
        &w[r..t],
        &mut f[0..n],
    )
}

// The field of a round, over that of the last one unless all cells are worked out anew. How many cells
// were sampled.
pub fn field(s: Setup, all: bool, b: &mut [u8], u: &mut [u32], w: &[f64], f: &mut [f32]) -> usize
    requires { Ready s b.old u.old w.now f.old }
    ensures { Done s all b.old u.old f.old result b.new u.new f.new }
{
    let grid = s.grid;
    let g = gauge_of(s, all);
    let x = wanted_window(g, b);
    measure(g, x, b, u);
    begin(grid, all, f);
    clear_dirty(grid, b);
    rows(g, x, b, u, w, f)
}

// 0 where the tool may go, else 1: the ring is where this crosses one half.
pub fn ring(allowed: &[u8], f: &mut [f32])
    requires { length f.old ≤ length allowed.now }
    ensures { f.new ≡ listed (length f.old) (ring_at allowed.now) }
{
    for (k, cell) in f.iter_mut().enumerate() {
        *cell = if allowed[k] == 1 { 0.0 } else { 1.0 };
    }
}
