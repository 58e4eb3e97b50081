// Open cells given up, with those connected with them.
ghost use Rattle.std.specs.Prelude.{◌≡◌, true, cond, ◌∷◌, ◌+◌, ◌-◌, ◌*◌, ◌≤◌, ◌<◌, ◌^◌, length, get_or};
ghost use Rattle.loops.specs.Frame.{Only};
ghost use Rattle.raster.specs.Grid.{Sides};
ghost use Rattle.setup.specs.Layout.{map_in, abandoned_from};
ghost use Rattle.workspace.specs.Standing.{reach_in, abandoned_in, abandoned_put};
ghost use Rattle.flood.specs.Flood.{fl, around_of, visit_of, flood_of, stack_of};

use super::place::is_open;
use raster::grid::{CellNo, Grid, cell_at, cell_in, column_of, index_of, number_of, row_of};
use setup::layout;

// Pushes the cell `less` before k on the stack of `len` cells, where there is one; the stack's new length.
fn push_if(stack: &mut [u32], len: usize, there: bool, k: usize, less: usize) -> usize
    requires len_in_bounds { len < length stack.old }
    requires less_le_k { there ≡ true → (less ≤ k) × (k < 2 ^ 32) }
    ensures stack_after { stack_of result stack.new ≡ cond there ((k - less) ∷ stack_of len stack.old) (stack_of len stack.old) }
    ensures upper_bound { result ≤ len + 1 }
{
    if there {
        stack[len] = number_of(cell_at(k - less));
        return len + 1;
    }
    len
}

// Pushes the cells beside c.
fn push_around(g: Grid, stack: &mut [u32], len: usize, c: CellNo) -> usize
    requires sides { Sides g }
    requires c_bound { c.0 < g.ny * g.nx }
    requires len_in_bounds { len + 4 ≤ length stack.old }
    ensures { stack_of result stack.new ≡ around_of g c.0 (stack_of len stack.old) }
{
    let k = index_of(c);
    let i = column_of(g, c);
    let j = row_of(g, c);
    let nx = g.nx;
    let ny = g.ny;
    let left = push_if(stack, len, 0 < i, k, 1);
    let down = push_if(stack, left, 0 < j, k, nx);
    let right = push_if(stack, down, i + 1 < nx, k + 1, 0);
    push_if(stack, right, j + 1 < ny, k + nx, 0)
}

// Pops the cell that the stack has at `len`: where it is open, it is given up and those beside it are
// pushed.
fn visit(g: Grid, b: &mut [u8], stack: &mut [u32], len: usize) -> usize
    requires sides { Sides g }
    requires nx_in_bounds { 8 * (g.ny * g.nx) ≤ length b.old }
    requires len_in_bounds { len + 4 ≤ length stack.old }
    requires len_bound { get_or stack.old len 0 < g.ny * g.nx }
    ensures b_after { fl (stack_of result stack.new) (abandoned_in (g.ny * g.nx) b.new) ≡ visit_of g (map_in (g.ny * g.nx) b.old) (reach_in (g.ny * g.nx) b.old) (get_or stack.old len 0) (stack_of len stack.old) (abandoned_in (g.ny * g.nx) b.old) }
    ensures only { Only (abandoned_from (g.ny * g.nx)) (abandoned_from (g.ny * g.nx) + g.ny * g.nx) b.old b.new }
{
    let n = g.ny * g.nx;
    let c = cell_in(stack, len);
    let k = index_of(c);
    if is_open(b, n, k) {
        let at = layout::abandoned(n) + k;
        b[at] = 1;
        return push_around(g, stack, len, c);
    }
    len
}

// Goes on from the cell at the bottom of the stack, which has room for four cells for each cell and more.
fn flood_on(g: Grid, b: &mut [u8], stack: &mut [u32])
    requires sides { Sides g }
    requires nx_in_bounds { 8 * (g.ny * g.nx) ≤ length b.old }
    requires nx_in_bounds_2 { 9 * (g.ny * g.nx) ≤ length stack.old }
    requires stack_bound { get_or stack.old 0 0 < g.ny * g.nx }
    ensures { b.new ≡ abandoned_put (g.ny * g.nx) (flood_of g (map_in (g.ny * g.nx) b.old) (reach_in (g.ny * g.nx) b.old) (get_or stack.old 0 0) (abandoned_in (g.ny * g.nx) b.old)) b.old }
{
    let n = g.ny * g.nx;
    let mut len = 1;
    for t in 0..4 * n + 2 {
        if len == 0 {
            return;
        }
        len = visit(g, b, stack, len - 1);
    }
}

// Gives up cell c, where it is open, and the open cells connected with it.
pub fn flood(g: Grid, b: &mut [u8], stack: &mut [u32], c: CellNo)
    requires sides { Sides g }
    requires nx_in_bounds { 8 * (g.ny * g.nx) ≤ length b.old }
    requires nx_in_bounds_2 { 9 * (g.ny * g.nx) ≤ length stack.old }
    requires c_bound { c.0 < g.ny * g.nx }
    ensures { b.new ≡ abandoned_put (g.ny * g.nx) (flood_of g (map_in (g.ny * g.nx) b.old) (reach_in (g.ny * g.nx) b.old) c.0 (abandoned_in (g.ny * g.nx) b.old)) b.old }
{
    stack[0] = number_of(c);
    flood_on(g, b, stack);
}
