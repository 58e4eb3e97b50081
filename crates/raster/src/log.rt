// Clearing with a log of the cells that were stock, and undoing by it.
ghost use Rattle.std.specs.Prelude.{◌≡◌, ◌<◌, length};
ghost use Rattle.loops.specs.Loop.{loop};
ghost use Rattle.raster.specs.Grid.{Over};
ghost use Rattle.raster.specs.Sweep.{Inside, over_span, crescent_at};
ghost use Rattle.raster.specs.Log.{st, Ready, Logged, written, clear_cell, clear_after, undone, redone};

use super::disk::{Cols, Crescent, Rows, cells_of, crescent_row, rows_of};
use super::grid::{CellNo, Grid, cell_at, index_of, number_of};
use geom::vec2::Vec2;

// Clears a row's columns, and logs the cells that were stock. The row begins at cell base. The log is a slice that C lends
// with a count of what is in it (`pocket_clear_crescent`).
pub fn clear_span_logged(
    map: &mut [u8],
    base: usize,
    columns: Option<Cols>,
    log: &mut [u32],
    count: usize,
) -> usize
    requires inside { Inside base (length map.old) columns }
    requires ready { Ready (st map.old log.old count) }
    ensures { st map.new log.new result ≡ over_span clear_cell base columns (st map.old log.old count) }
{
    let (from, to) = cells_of(base, columns);
    let mut n = count;
    for k in from..to {
        if map[k] == 1 {
            map[k] = 0;
            log[n] = number_of(cell_at(k));
            n += 1;
        }
    }
    n
}

// The same of both spans of a crescent's row.
fn clear_columns(map: &mut [u8], base: usize, row: Crescent, log: &mut [u32], count: usize) -> usize
    requires left { Inside base (length map.old) row.left }
    requires right { Inside base (length map.old) row.right }
    requires ready { Ready (st map.old log.old count) }
    ensures { st map.new log.new result ≡ over_span clear_cell base row.right (over_span clear_cell base row.left (st map.old log.old count)) }
{
    let n = clear_span_logged(map, base, row.left, log, count);
    clear_span_logged(map, base, row.right, log, n)
}

// Clears row y of the crescent from prev to c.
pub fn clear_row(
    g: Grid,
    map: &mut [u8],
    prev: Vec2,
    c: Vec2,
    r: f64,
    y: usize,
    log: &mut [u32],
    count: usize,
) -> usize
    requires over { Over g (length map.old) }
    requires ready { Ready (st map.old log.old count) }
    requires y_lt_ny { y < g.ny }
    ensures { st map.new log.new result ≡ crescent_at clear_cell g prev c r y (st map.old log.old count) }
{
    let row = crescent_row(g, prev, c, r * r, y);
    clear_columns(map, y * g.nx, row, log, count)
}

// Clears the crescent from prev to c, with the numbers of the cells that were stock appended to the
// log; the log's new count.
pub fn clear_disk_after_logged(
    g: Grid,
    map: &mut [u8],
    prev: Vec2,
    c: Vec2,
    r: f64,
    log: &mut [u32],
    count: usize,
) -> usize
    requires over { Over g (length map.old) }
    requires ready { Ready (st map.old log.old count) }
    ensures { st map.new log.new result ≡ clear_after g prev c r (st map.old log.old count) }
{
    let Rows(first, last) = rows_of(g, c, r);
    if last < first {
        return count;
    }
    let r2 = r * r;
    let nx = g.nx;
    let mut base = first * nx;
    let mut n = count;
    for y in first..last + 1 {
        n = clear_columns(map, base, crescent_row(g, prev, c, r2, y), log, n);
        base += nx;
    }
    n
}

// Writes a byte to each logged cell.
fn write_logged(map: &mut [u8], log: &[u32], byte: u8)
    requires { Logged log.now (length log.now) (length map.old) }
    ensures { map.new ≡ loop (written log.now byte) 0 (length log.now) map.old }
{
    for cell in log {
        let k = index_of(CellNo(*cell));
        map[k] = byte;
    }
}

// Sets the logged cells back.
pub fn undo(map: &mut [u8], log: &[u32])
    requires { Logged log.now (length log.now) (length map.old) }
    ensures { map.new ≡ undone log.now 0 (length log.now) map.old }
{
    write_logged(map, log, 1);
}

// Clears the logged cells again.
pub fn clear_again(map: &mut [u8], log: &[u32])
    requires { Logged log.now (length log.now) (length map.old) }
    ensures { map.new ≡ redone log.now 0 (length log.now) map.old }
{
    write_logged(map, log, 0);
}
