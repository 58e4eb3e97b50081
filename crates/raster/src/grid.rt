// A raster's cells: their numbers and centres, and the cell at a point.
ghost use Rattle.std.specs.Prelude.{◌≡◌, ◌≤◌, ◌<◌, ◌%◌, ◌/◌, ◌^◌, length, get_or};
ghost use Rattle.raster.specs.Grid.{Sides, Over, spans_of, fit_of, reach_of, grid_of, sized_of, new_grid, numbered, center_of, cell_of, stock_at};

use geom::vec2::Vec2;
use numbers::cast::float_of;

#[repr(C)]
#[derive(Clone, Copy)]
pub struct Grid {
    // Lower-left corner of cell (0, 0).
    pub origin: Vec2,
    pub cell: f64,
    pub nx: usize,
    pub ny: usize,
}

// The number of a cell.
#[derive(Clone, Copy)]
pub struct CellNo(pub u32);

// Why there is no grid: its corners or its cell are no corners and no cell, or it is too large.
#[derive(Clone, Copy)]
pub enum Refusal {
    Unfit,
    TooLarge,
}

// Document 01's number of a refusal.
impl From<Refusal> for u32 {
    ghost use Rattle.std.specs.Prelude.{◌≡◌};
    ghost use Rattle.raster.specs.Grid.{refusal_of};

    ghost from_gives = { λ refusal number. number ≡ refusal_of refusal };

    fn from(refusal: Refusal) -> u32 {
        match refusal {
            Refusal::Unfit => 12,
            Refusal::TooLarge => 14,
        }
    }
}

// Numbers, the second not below the first.
fn spans(lo: f64, hi: f64) -> bool
    ensures { result ≡ spans_of lo hi }
{
    let numbers = numbers::order::is_finite(lo) & numbers::order::is_finite(hi);
    numbers & !(hi < lo)
}

// The tests that the Rust makes of corners and cell.
fn is_fit(lo: Vec2, hi: Vec2, cell: f64) -> bool
    ensures { result ≡ fit_of lo hi cell }
{
    let positive = numbers::order::is_finite(cell) & (0.0 < cell);
    let corners = spans(lo.x, hi.x) & spans(lo.y, hi.y);
    positive & corners
}

// The whole cells from lo to hi with the margin on both sides, less one.
fn reach(lo: f64, hi: f64, cell: f64, margin: f64) -> usize
    ensures { result ≡ reach_of lo hi cell margin }
{
    numbers::cast::sat_u64(numbers::whole::ceil((hi - lo + 2.0 * margin) / cell)) as usize
}

// The grid over lo..hi with a margin around it, unless it is larger than document 01 allows.
fn sized(lo: Vec2, hi: Vec2, cell: f64, margin: f64) -> Result<Grid, Refusal>
    ensures { result ≡ sized_of (grid_of lo hi cell margin) }
{
    let w = reach(lo.x, hi.x, cell, margin);
    let h = reach(lo.y, hi.y, cell, margin);
    if w < 4096 {
        if h < 4096 {
            let nx = w + 1;
            let ny = h + 1;
            if ny * nx <= 1048576 {
                let origin = lo.sub(Vec2 {
                    x: margin,
                    y: margin,
                });
                return Ok(Grid {
                    origin,
                    cell,
                    nx,
                    ny,
                });
            }
        }
    }
    Err(Refusal::TooLarge)
}

pub fn new(lo: Vec2, hi: Vec2, cell: f64, margin: f64) -> Result<Grid, Refusal>
    ensures { result ≡ new_grid lo hi cell margin }
{
    if is_fit(lo, hi, cell) {
        return sized(lo, hi, cell, margin);
    }
    Err(Refusal::Unfit)
}

pub fn cell_no(g: Grid, i: usize, j: usize) -> CellNo
    requires sides { Sides g }
    requires i_lt_nx { i < g.nx }
    requires j_lt_ny { j < g.ny }
    ensures { result ≡ numbered g i j }
{
    let nx = g.nx;
    CellNo((j * nx + i) as u32)
}

pub fn column_of(g: Grid, c: CellNo) -> usize
    requires { Sides g }
    ensures { result ≡ c.0 % g.nx }
{
    c.0 as usize % g.nx
}

pub fn row_of(g: Grid, c: CellNo) -> usize
    requires { Sides g }
    ensures { result ≡ c.0 / g.nx }
{
    c.0 as usize / g.nx
}

// A cell's place in the map, and back.
pub fn index_of(c: CellNo) -> usize
    ensures { result ≡ c.0 }
{
    c.0 as usize
}

pub fn cell_at(k: usize) -> CellNo
    requires { k < 2 ^ 32 }
    ensures { result.0 ≡ k }
{
    CellNo(k as u32)
}

// A cell's number as a slice holds it, and the cell that stands in a slice.
pub fn number_of(c: CellNo) -> u32
    ensures { result ≡ c.0 }
{
    c.0
}

pub fn cell_in(cells: &[u32], i: usize) -> CellNo
    requires { i < length cells.now }
    ensures { result.0 ≡ get_or cells.now i 0 }
{
    CellNo(cells[i])
}

pub fn center(g: Grid, i: usize, j: usize) -> Vec2
    ensures { result ≡ center_of g i j }
{
    let origin = g.origin;
    origin.add(Vec2 {
        x: (float_of(i) + 0.5) * g.cell,
        y: (float_of(j) + 0.5) * g.cell,
    })
}

// The cell at a point, as column and row.
// The tests turn NaN back, and an infinity's column is beyond every grid's. A column that is on a grid has a u32.
pub fn cell_of(g: Grid, p: Vec2) -> Option<(usize, usize)>
    requires nx_bound { g.nx ≤ 4096 }
    requires ny_bound { g.ny ≤ 4096 }
    ensures { result ≡ cell_of g p }
{
    let fx = (p.x - g.origin.x) / g.cell;
    let fy = (p.y - g.origin.y) / g.cell;
    if fx >= 0.0 {
        if fy >= 0.0 {
            let i = numbers::cast::sat_u32(fx) as usize;
            if i < g.nx {
                let j = numbers::cast::sat_u32(fy) as usize;
                if j < g.ny {
                    return Some((i, j));
                }
            }
        }
    }
    None
}

// Stock at a point; none off the grid.
pub fn at(g: Grid, map: &[u8], p: Vec2) -> bool
    requires { Over g (length map.now) }
    ensures { result ≡ stock_at g map.now p }
{
    let Some((i, j)) = cell_of(g, p) else {
        return false;
    };
    let k = index_of(cell_no(g, i, j));
    map[k] == 1
}
