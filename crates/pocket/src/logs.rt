// The stock map with a log: a crescent cleared and logged, logged cells set back or cleared again.
ghost use Rattle.std.specs.Prelude.{◌≡◌, ◌≤◌, length};
ghost use Rattle.pocket.specs.Answers.{of_count, of_done};
ghost use Rattle.pocket.specs.Refusals.{room_fit, crescent_asked, log_fit, log_asked};
ghost use Rattle.pocket.specs.Leaves.{on_map, told_map, on_log, told_log, clear_crescent_of, undo_of, clear_again_of};

use super::answers::{PocketCount, of_done};
use super::ranges::{disk_fits, grid_fits, point_fits, sides_fit};
use super::refusals::{Refusal, ask_map, ask_size};
use geom::vec2::Vec2;
use raster::grid::Grid;

// Whether a log has a place for each cell, and behind its used part one for each that is stock.
fn room_fits(n: usize, map: &[u8], long: usize, used: usize) -> bool
    requires { n ≤ length map.now }
    ensures { result ≡ room_fit n map.now long used }
{
    if long < used {
        return false;
    }
    let room = long - used;
    // Room for each cell is room for the stock: then none is counted.
    if n <= room {
        return true;
    }
    (n <= long) & (raster::stock::count(&map[0..n]) <= room)
}

fn ask_crescent(
    g: Grid,
    prev: Vec2,
    c: Vec2,
    r: f64,
    map: &[u8],
    long: usize,
    used: usize,
) -> Result<(), Refusal>
    ensures { result ≡ crescent_asked g prev c r map.now long used }
{
    let fit = grid_fits(g) & (point_fits(prev) & disk_fits(c, r));
    ask_map(fit, g.nx, g.ny, map.len())?;
    if !room_fits(g.ny * g.nx, map, long, used) {
        return Err(Refusal::TooShort);
    }
    Ok(())
}

// Clears the crescent from prev to c, with the numbers of the cells that were stock appended to the
// log; the log's new count.
pub fn clear_crescent(
    g: Grid,
    map: &mut [u8],
    prev: Vec2,
    c: Vec2,
    r: f64,
    log: &mut [u32],
    used: usize,
) -> Result<usize, Refusal>
    ensures { on_log result map.new log.new ≡ clear_crescent_of g prev c r used map.old log.old }
{
    ask_crescent(g, prev, c, r, map, log.len(), used)?;
    let n = g.ny * g.nx;
    Ok(raster::log::clear_disk_after_logged(g, &mut map[0..n], prev, c, r, log, used))
}

// Whether the log has its used part, and each cell there is below n.
fn log_fits(log: &[u32], used: usize, n: usize) -> bool
    ensures { result ≡ log_fit log.now used n }
{
    if log.len() < used {
        return false;
    }
    for k in 0..used {
        if n <= log[k] as usize {
            return false;
        }
    }
    true
}

fn ask_log(nx: usize, ny: usize, long: usize, log: &[u32], used: usize) -> Result<(), Refusal>
    ensures { result ≡ log_asked nx ny long log.now used }
{
    if !sides_fit(nx, ny) {
        return Err(Refusal::NoRaster);
    }
    if !log_fits(log, used, ny * nx) {
        return Err(Refusal::NoRaster);
    }
    ask_size(nx, ny, long)
}

// Sets the first `used` logged cells back.
pub fn undo(nx: usize, ny: usize, map: &mut [u8], log: &[u32], used: usize) -> Result<(), Refusal>
    ensures { on_map result map.new ≡ undo_of nx ny log.now used map.old }
{
    ask_log(nx, ny, map.len(), log, used)?;
    raster::log::undo(map, &log[..used]);
    Ok(())
}

// Clears the first `used` logged cells again.
pub fn clear_again(
    nx: usize,
    ny: usize,
    map: &mut [u8],
    log: &[u32],
    used: usize,
) -> Result<(), Refusal>
    ensures { on_map result map.new ≡ clear_again_of nx ny log.now used map.old }
{
    ask_log(nx, ny, map.len(), log, used)?;
    raster::log::clear_again(map, &log[..used]);
    Ok(())
}

#[unsafe(no_mangle)]
pub extern "C" fn pocket_clear_crescent(
    grid: Grid,
    map: &mut [u8],
    before: Vec2,
    center: Vec2,
    radius: f64,
    log: &mut [u32],
    used: usize,
) -> PocketCount
    ensures { on_log result map.new log.new ≡ told_log of_count (clear_crescent_of grid before center radius used map.old log.old) }
{
    PocketCount::from(clear_crescent(grid, map, before, center, radius, log, used))
}

#[unsafe(no_mangle)]
pub extern "C" fn pocket_undo(nx: usize, ny: usize, map: &mut [u8], log: &[u32], used: usize) -> u32
    ensures { on_map result map.new ≡ told_map of_done (undo_of nx ny log.now used map.old) }
{
    of_done(undo(nx, ny, map, log, used))
}

#[unsafe(no_mangle)]
pub extern "C" fn pocket_clear_again(
    nx: usize,
    ny: usize,
    map: &mut [u8],
    log: &[u32],
    used: usize,
) -> u32
    ensures { on_map result map.new ≡ told_map of_done (clear_again_of nx ny log.now used map.old) }
{
    of_done(clear_again(nx, ny, map, log, used))
}
