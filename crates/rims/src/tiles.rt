// Tiles of 8 by 8 cells: bytes that tell where a map has no stock, so that samples of a rim can be passed over.
ghost use Rattle.std.specs.Prelude.{◌≡◌, ◌+◌, ◌*◌, ◌≤◌, ◌<◌, length};
ghost use Rattle.raster.specs.Grid.{Over};
ghost use Rattle.rims.specs.Tiles.{tiles_of, Keeps, Gathered, RowsGathered, Marked, ColumnsMarked, StockMarked, Tiled};

use raster::grid::Grid;
use spans::runs::has_stock;

// How many tiles lie along n cells.
pub fn tiles_of(n: usize) -> usize
    requires { n ≤ 4096 }
    ensures { result ≡ tiles_of n }
{
    (n + 7) / 8
}

// Marks the columns in which one of the n cells from number a on is stock; by index, since of a slice that is written
// through a zip the proof knows only the length. No turn stops it, so that many go at once.
fn gather(map: &[u8], a: usize, n: usize, cols: &mut [u8])
    requires { (a + n ≤ length map.now) × (n ≤ length cols.old) }
    ensures { Keeps cols.old cols.new × Gathered map.now a n cols.new }
{
    for i in 0..n {
        let x = cols[i];
        cols[i] = if map[a + i] == 1 { 1 } else { x };
    }
}

// Marks the columns that have stock in a row from `first` on, before `end`.
pub fn gather_rows(g: Grid, map: &[u8], first: usize, end: usize, cols: &mut [u8])
    requires over { Over g (length map.now) }
    requires nx_in_bounds { g.nx ≤ length cols.old }
    ensures { Keeps cols.old cols.new × RowsGathered g map.now first end cols.new }
{
    for j in first..end.min(g.ny) {
        gather(map, j * g.nx, g.nx, cols);
    }
}

// Marks tile (x, y), the one to its left, the one below it and the one to the left of that, in rows of n tiles.
fn mark(n: usize, x: usize, y: usize, tiles: &mut [u8])
    requires { (x < n) × (y * n + n ≤ length tiles.old) }
    ensures { Keeps tiles.old tiles.new × Marked n x y tiles.new }
{
    let u = x.saturating_sub(1);
    let v = y.saturating_sub(1);
    tiles[y * n + x] = 1;
    tiles[y * n + u] = 1;
    tiles[v * n + x] = 1;
    tiles[v * n + u] = 1;
}

// Marks what the columns of row y of tiles ask for.
fn mark_row(n: usize, y: usize, cols: &[u8], tiles: &mut [u8])
    requires { (n * 8 ≤ length cols.now) × (y * n + n ≤ length tiles.old) }
    ensures { Keeps tiles.old tiles.new × ColumnsMarked n y cols.now n tiles.new }
{
    for x in 0..n {
        if has_stock(cols, 8 * x, 8 * x + 8) {
            mark(n, x, y, tiles);
        }
    }
}

// Marks what the stock in row y of tiles asks for.
fn fill_row(g: Grid, map: &[u8], y: usize, tiles: &mut [u8])
    requires over { Over g (length map.now) }
    requires y_bound { (y < tiles_of g.ny) × (20480 ≤ length tiles.old) }
    ensures { Keeps tiles.old tiles.new × StockMarked g map.now (8 * y) (8 * y + 8) tiles.new }
{
    let mut cols = [0u8; 4096];
    gather_rows(g, map, 8 * y, 8 * y + 8, &mut cols);
    mark_row(tiles_of(g.nx), y, &cols, tiles);
}

// Tells of each tile whether stock is in it or in the three to its right and above.
pub fn fill(g: Grid, map: &[u8], tiles: &mut [u8])
    requires over { Over g (length map.now) }
    requires in_bounds { 20480 ≤ length tiles.old }
    ensures { Tiled g map.now tiles.new }
{
    for y in 0..tiles_of(g.ny) {
        fill_row(g, map, y, tiles);
    }
}
