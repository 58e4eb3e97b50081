// Plain forms of what the layers do with fewer operations, under the same contracts. They are here to be
// timed beside those and nothing of the planner calls them.
#![tactic(auto)]

ghost use Rattle.std.specs.Prelude.{◌≡◌, length};
ghost use Rattle.raster.specs.Grid.{Over};
ghost use Rattle.raster.specs.Stock.{count_disk};

use geom::vec2::Vec2;
use raster::disk::{Rows, cells_of, chord, rows_of};
use raster::grid::Grid;
use raster::stock::count;

// `raster::stock::count_disk` as its definition has it: each row squares the radius and multiplies out its
// first cell's number.
pub fn count_disk(g: Grid, map: &[u8], c: Vec2, r: f64) -> usize
    requires { Over g (length map.now) }
    ensures { result ≡ count_disk g c r map.now }
{
    let Rows(first, last) = rows_of(g, c, r);
    let mut n = 0;
    for j in first..last + 1 {
        let (from, to) = cells_of(j * g.nx, chord(g, c, r * r, j));
        n += count(&map[from..to]);
    }
    n
}
