// The wall distances: of each cell to the nearest cell outside the pocket.
ghost use Rattle.std.specs.Prelude.{◌≡◌, ◌+◌, ◌*◌, ◌≤◌, length};
ghost use Rattle.loops.specs.Regions.{within};
ghost use Rattle.distance.specs.Nearest.{listed};
ghost use Rattle.raster.specs.Grid.{Sides};
ghost use Rattle.start.specs.Start.{walls_of};
ghost use Rattle.start.specs.Steps.{inside_in, length_at};

use distance::roots::distance_of;
use raster::grid::Grid;
use setup::layout;

// The lengths that squares of distances in cells stand for.
fn lengths(cell: f64, squares: &[u32], wall: &mut [f64])
    requires { length wall.old ≤ length squares.now }
    ensures { wall.new ≡ listed (length wall.old) (length_at cell squares.now) }
{
    for k in 0..wall.len() {
        wall[k] = distance_of(squares[k]) * cell;
    }
}

// The squares are scratch.
pub fn fill_walls(g: Grid, b: &[u8], u: &mut [u32], w: &mut [f64])
    requires sides { Sides g }
    requires nx_in_bounds { 8 * (g.ny * g.nx) ≤ length b.now }
    requires nx_in_bounds_2 { 32 * (g.ny * g.nx) + 8192 ≤ length u.old }
    requires nx_in_bounds_3 { 32 * (g.ny * g.nx) + 8192 ≤ length w.old }
    ensures { within 0 (g.ny * g.nx) w.new ≡ walls_of g (inside_in (g.ny * g.nx) b.now) }
{
    let n = layout::cells(g);
    let a = layout::inside(n);
    let e = a + n;
    distance::transform(&b[a..e], 0, g.nx, g.ny, u);
    lengths(g.cell, &u[0..n], &mut w[0..n]);
}
