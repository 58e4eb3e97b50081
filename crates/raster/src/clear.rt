// A disk cleared, and the cells counted that were stock.
ghost use Rattle.std.specs.Prelude.{◌≡◌, length};
ghost use Rattle.loops.specs.Loop.{loop};
ghost use Rattle.raster.specs.Grid.{Over};
ghost use Rattle.raster.specs.Stock.{cl, drop_cell, clear_disk};

use super::disk::{Rows, cells_of, chord, rows_of};
use super::grid::Grid;
use geom::vec2::Vec2;

// Clears the cells that are stock; how many there were. By index: over `iter_mut` an empty map takes a third more time.
fn clear(cells: &mut [u8]) -> usize
    ensures { cl cells.new result ≡ loop drop_cell 0 (length cells.old) (cl cells.old 0) }
{
    let mut removed = 0;
    for k in 0..cells.len() {
        if cells[k] == 1 {
            cells[k] = 0;
            removed += 1;
        }
    }
    removed
}

// Clears the disk of radius r at c; how many cells were stock. Its rows are stepped as in `count_disk`.
pub fn clear_disk(g: Grid, map: &mut [u8], c: Vec2, r: f64) -> usize
    requires { Over g (length map.old) }
    ensures { cl map.new result ≡ clear_disk g c r map.old }
{
    let Rows(first, last) = rows_of(g, c, r);
    if last < first {
        return 0;
    }
    let r2 = r * r;
    let nx = g.nx;
    let mut base = first * nx;
    let mut n = 0;
    for j in first..last + 1 {
        let (from, to) = cells_of(base, chord(g, c, r2, j));
        n += clear(&mut map[from..to]);
        base += nx;
    }
    n
}
