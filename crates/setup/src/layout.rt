// Where the workspace's regions begin, for a raster of n cells (specs/Layout.antt has the table).
ghost use Rattle.std.specs.Prelude.{◌≡◌, ◌*◌, ◌≤◌};
ghost use Rattle.raster.specs.Grid.{Sides};
ghost use Rattle.setup.specs.Layout.{most, allowed_from, reach_from, abandoned_from, dirty_from, inside_from, marks_from};
ghost use Rattle.setup.specs.Layout.{near_from, before_from, segments_from, log_from};
ghost use Rattle.setup.specs.Layout.{ring_from, traced_from, guide_from, cost_from, path_from, rim_from, columns_from, tables_end};

use raster::grid::Grid;

// A raster's cells.
pub fn cells(g: Grid) -> usize
    requires { Sides g }
    ensures { result ≡ g.ny * g.nx }
{
    g.ny * g.nx
}

// ---- bytes; the stock map is at 0

pub fn allowed(n: usize) -> usize
    requires { n ≤ most }
    ensures { result ≡ allowed_from n }
{
    n
}

pub fn reach(n: usize) -> usize
    requires { n ≤ most }
    ensures { result ≡ reach_from n }
{
    2 * n
}

pub fn abandoned(n: usize) -> usize
    requires { n ≤ most }
    ensures { result ≡ abandoned_from n }
{
    3 * n
}

pub fn dirty(n: usize) -> usize
    requires { n ≤ most }
    ensures { result ≡ dirty_from n }
{
    4 * n
}

pub fn inside(n: usize) -> usize
    requires { n ≤ most }
    ensures { result ≡ inside_from n }
{
    5 * n
}

pub fn marks(n: usize) -> usize
    requires { n ≤ most }
    ensures { result ≡ marks_from n }
{
    6 * n
}

// ---- u32; the squares of the distance to stock are at 0

pub fn near(n: usize) -> usize
    requires { n ≤ most }
    ensures { result ≡ near_from n }
{
    n
}

pub fn before(n: usize) -> usize
    requires { n ≤ most }
    ensures { result ≡ before_from n }
{
    5 * n
}

pub fn segments(n: usize) -> usize
    requires { n ≤ most }
    ensures { result ≡ segments_from n }
{
    15 * n
}

pub fn log(n: usize) -> usize
    requires { n ≤ most }
    ensures { result ≡ log_from n }
{
    24 * n
}

// ---- f32; the field is at 0

pub fn ring(n: usize) -> usize
    requires { n ≤ most }
    ensures { result ≡ ring_from n }
{
    n
}

// ---- f64; the wall distances are at 0

pub fn traced(n: usize) -> usize
    requires { n ≤ most }
    ensures { result ≡ traced_from n }
{
    n
}

pub fn guide(n: usize) -> usize
    requires { n ≤ most }
    ensures { result ≡ guide_from n }
{
    5 * n
}

pub fn cost(n: usize) -> usize
    requires { n ≤ most }
    ensures { result ≡ cost_from n }
{
    10 * n
}

pub fn path(n: usize) -> usize
    requires { n ≤ most }
    ensures { result ≡ path_from n }
{
    20 * n
}

pub fn rim(n: usize) -> usize
    requires { n ≤ most }
    ensures { result ≡ rim_from n }
{
    24 * n
}

pub fn columns(n: usize) -> usize
    requires { n ≤ most }
    ensures { result ≡ columns_from n }
{
    24 * n + 4096
}

pub fn tables_end(n: usize) -> usize
    requires { n ≤ most }
    ensures { result ≡ tables_end n }
{
    32 * n + 8192
}
