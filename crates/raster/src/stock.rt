// The stock map: counted, whole or under a disk, and intersected.
ghost use Rattle.std.specs.Prelude.{◌≡◌, ◌≤◌, length};
ghost use Rattle.loops.specs.Cells.{ones};
ghost use Rattle.raster.specs.Grid.{Over};
ghost use Rattle.raster.specs.Stock.{count_disk, intersection};

use super::disk::{Rows, cells_of, chord, rows_of};
use super::grid::Grid;
use geom::vec2::Vec2;

// How many cells are stock.
pub fn count(map: &[u8]) -> usize
    ensures { result ≡ ones map.now }
{
    let mut standing = 0;
    for &cell in map {
        if cell == 1 {
            standing += 1;
        }
    }
    standing
}

// Keeps only cells that are stock in both maps. By index: of a slice that is written through a zip the proof knows only
// the length.
pub fn intersect(map: &mut [u8], other: &[u8])
    requires { length map.old ≤ length other.now }
    ensures { map.new ≡ intersection map.old other.now }
{
    for (k, cell) in map.iter_mut().enumerate() {
        if other[k] != 1 {
            *cell = 0;
        }
    }
}

// How many stock cells are in the disk of radius r at c. Each row begins nx cells after the one before.
pub fn count_disk(g: Grid, map: &[u8], c: Vec2, r: f64) -> usize
    requires { Over g (length map.now) }
    ensures { result ≡ count_disk g c r map.now }
{
    let Rows(first, last) = rows_of(g, c, r);
    if last < first {
        return 0;
    }
    let r2 = r * r;
    let nx = g.nx;
    let mut base = first * nx;
    let mut n = 0;
    for j in first..last + 1 {
        let (from, to) = cells_of(base, chord(g, c, r2, j));
        n += count(&map[from..to]);
        base += nx;
    }
    n
}
