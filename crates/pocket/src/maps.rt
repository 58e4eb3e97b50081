// The stock map: a disk cleared or counted, the whole counted.
ghost use Rattle.std.specs.Prelude.{◌≡◌};
ghost use Rattle.pocket.specs.Answers.{of_count};
ghost use Rattle.pocket.specs.Refusals.{disk_asked};
ghost use Rattle.pocket.specs.Leaves.{on_map, told_map, clear_disk_of, count_disk_of, standing_of};

use super::answers::PocketCount;
use super::ranges::{disk_fits, grid_fits};
use super::refusals::{Refusal, ask_map, ask_size};
use geom::vec2::Vec2;
use raster::grid::Grid;

fn ask_disk(g: Grid, c: Vec2, r: f64, long: usize) -> Result<(), Refusal>
    ensures { result ≡ disk_asked g c r long }
{
    ask_map(grid_fits(g) & disk_fits(c, r), g.nx, g.ny, long)
}

// Clears the disk of radius r at c; how many cells were stock.
pub fn clear_disk(g: Grid, map: &mut [u8], c: Vec2, r: f64) -> Result<usize, Refusal>
    ensures { on_map result map.new ≡ clear_disk_of g c r map.old }
{
    ask_disk(g, c, r, map.len())?;
    Ok(raster::clear::clear_disk(g, map, c, r))
}

// How many stock cells are in the disk of radius r at c.
pub fn count_disk(g: Grid, map: &[u8], c: Vec2, r: f64) -> Result<usize, Refusal>
    ensures { result ≡ count_disk_of g c r map.now }
{
    ask_disk(g, c, r, map.len())?;
    Ok(raster::stock::count_disk(g, map, c, r))
}

// How many cells are stock.
pub fn standing(nx: usize, ny: usize, map: &[u8]) -> Result<usize, Refusal>
    ensures { result ≡ standing_of nx ny map.now }
{
    ask_size(nx, ny, map.len())?;
    let n = ny * nx;
    Ok(raster::stock::count(&map[0..n]))
}

#[unsafe(no_mangle)]
pub extern "C" fn pocket_clear_disk(
    grid: Grid,
    map: &mut [u8],
    center: Vec2,
    radius: f64,
) -> PocketCount
    ensures { on_map result map.new ≡ told_map of_count (clear_disk_of grid center radius map.old) }
{
    PocketCount::from(clear_disk(grid, map, center, radius))
}

#[unsafe(no_mangle)]
pub extern "C" fn pocket_count_disk(
    grid: Grid,
    map: &[u8],
    center: Vec2,
    radius: f64,
) -> PocketCount
    ensures { result ≡ of_count (count_disk_of grid center radius map.now) }
{
    PocketCount::from(count_disk(grid, map, center, radius))
}

#[unsafe(no_mangle)]
pub extern "C" fn pocket_standing(nx: usize, ny: usize, map: &[u8]) -> PocketCount
    ensures { result ≡ of_count (standing_of nx ny map.now) }
{
    PocketCount::from(standing(nx, ny, map))
}
