// The cell at a point, and the cells of a region.
ghost use Rattle.std.specs.Prelude.{◌≡◌};
ghost use Rattle.pocket.specs.Answers.{of_cell, of_done};
ghost use Rattle.pocket.specs.Refusals.{cell_asked, shape_fit, fill_asked};
ghost use Rattle.pocket.specs.Leaves.{on_map, told_map, cell_at_of, fill_of};

use super::answers::{PocketCell, of_done};
use super::ranges::{coordinates_fit, grid_fits, point_fits, sides_fit};
use super::refusals::{Refusal, ask_size};
use geom::region::Region;
use geom::vec2::Vec2;
use raster::grid::Grid;

fn ask_cell(g: Grid, p: Vec2) -> Result<(), Refusal>
    ensures { result ≡ cell_asked g p }
{
    if !(grid_fits(g) & point_fits(p)) {
        return Err(Refusal::OutOfRange);
    }
    if !sides_fit(g.nx, g.ny) {
        return Err(Refusal::NoRaster);
    }
    Ok(())
}

// The cell that holds a point.
pub fn cell_of(g: Grid, p: Vec2) -> Result<Option<(usize, usize)>, Refusal>
    ensures { result ≡ cell_at_of g p }
{
    ask_cell(g, p)?;
    Ok(raster::grid::cell_of(g, p))
}

fn shape_fits(vs: &[f64], lens: &[u32]) -> bool
    ensures { result ≡ shape_fit vs.now lens.now }
{
    let loops = lens.len();
    if (1 <= loops) & (loops <= 65) {
        return entry::shapes::vertices_fit(vs, lens);
    }
    false
}

fn ask_fill(g: Grid, vs: &[f64], lens: &[u32], long: usize) -> Result<(), Refusal>
    ensures { result ≡ fill_asked g vs.now lens.now long }
{
    if !(grid_fits(g) & coordinates_fit(vs)) {
        return Err(Refusal::OutOfRange);
    }
    if !shape_fits(vs, lens) {
        return Err(Refusal::NoRegion);
    }
    ask_size(g.nx, g.ny, long)
}

// Sets the cells of a region: its outer loop and its islands, one after the other.
pub fn fill_region(g: Grid, map: &mut [u8], vs: &[f64], lens: &[u32]) -> Result<(), Refusal>
    ensures { on_map result map.new ≡ fill_of g vs.now lens.now map.old }
{
    ask_fill(g, vs, lens, map.len())?;
    let region = Region {
        at: 0,
        first: 0,
        loops: lens.len(),
    };
    let mut xs = [0.0; 4096];
    filling::region::fill_region(g, map, vs, lens, region, &mut xs);
    Ok(())
}

#[unsafe(no_mangle)]
pub extern "C" fn pocket_cell_of(grid: Grid, point: Vec2) -> PocketCell
    ensures { result ≡ of_cell (cell_at_of grid point) }
{
    PocketCell::from(cell_of(grid, point))
}

#[unsafe(no_mangle)]
pub extern "C" fn pocket_fill_region(
    grid: Grid,
    map: &mut [u8],
    vertices: &[f64],
    lengths: &[u32],
) -> u32
    ensures { on_map result map.new ≡ told_map of_done (fill_of grid vertices.now lengths.now map.old) }
{
    of_done(fill_region(grid, map, vertices, lengths))
}
