// The tool's tables, and an empty log.
ghost use Rattle.std.specs.Prelude.{◌≡◌, ◌+◌, ◌*◌, ◌≤◌, length, replicate};
ghost use Rattle.raster.specs.Grid.{Sides};
ghost use Rattle.setup.specs.Layout.{log_in};
ghost use Rattle.setup.specs.Place.{cells_of};
ghost use Rattle.start.specs.Steps.{Tabled};

use raster::grid::Grid;
use setup::{Setup, layout};

pub fn tables(s: Setup, w: &mut [f64])
    requires sides { Sides s.grid }
    requires samples_bound { s.samples ≤ 2048 }
    requires s_in_bounds { 32 * cells_of s + 8192 ≤ length w.old }
    ensures { Tabled s w.old w.new }
{
    let n = layout::cells(s.grid);
    let a = layout::rim(n);
    let e = layout::tables_end(n);
    setup::tables::fill(s.grid, s.r, s.r_guard, s.samples, &mut w[a..e]);
}

pub fn clear_log(g: Grid, u: &mut [u32])
    requires sides { Sides g }
    requires nx_in_bounds { 32 * (g.ny * g.nx) + 8192 ≤ length u.old }
    ensures { log_in (g.ny * g.nx) u.new ≡ replicate (g.ny * g.nx) 0 }
{
    let n = layout::cells(g);
    let a = layout::log(n);
    let e = a + n;
    u[a..e].fill(0);
}
