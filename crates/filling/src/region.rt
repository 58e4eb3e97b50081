// A region filled in: row by row by its edges' crossings or, where a grid's columns do not rise, cell by cell.
ghost use Rattle.std.specs.Prelude.{◌≡◌, ◌≤◌, ◌<◌, length};
ghost use Rattle.geom.specs.Region.{Held};
ghost use Rattle.raster.specs.Grid.{Over};
ghost use Rattle.filling.specs.Fill.{fill_row, fill_region};
ghost use Rattle.filling.specs.Columns.{Centred, Rising};

use super::centres::{centres, rises};
use super::rows::fill_row;
use geom::region::{Region, contains};
use raster::grid::{Grid, center};

// Row j, cell by cell.
fn fill_cells(g: Grid, map: &mut [u8], vs: &[f64], lens: &[u32], region: Region, j: usize)
    requires over { Over g (length map.old) }
    requires held { Held vs.now lens.now region }
    requires j_lt_ny { j < g.ny }
    ensures { map.new ≡ fill_row g vs.now lens.now region j map.old }
{
    let nx = g.nx;
    let base = j * nx;
    for i in 0..nx {
        if contains(vs, lens, region, center(g, i, j)) {
            map[base + i] = 1;
        }
    }
}

fn fill_plainly(g: Grid, map: &mut [u8], vs: &[f64], lens: &[u32], region: Region)
    requires over { Over g (length map.old) }
    requires held { Held vs.now lens.now region }
    ensures { map.new ≡ fill_region g vs.now lens.now region map.old }
{
    for j in 0..g.ny {
        fill_cells(g, map, vs, lens, region, j);
    }
}

fn fill_rows(g: Grid, xs: &[f64], map: &mut [u8], vs: &[f64], lens: &[u32], region: Region)
    requires over { Over g (length map.old) }
    requires held { Held vs.now lens.now region }
    requires centred { Centred g xs.now × Rising xs.now }
    ensures { map.new ≡ fill_region g vs.now lens.now region map.old }
{
    let mut row = [0u8; 4096];
    let mut cover = [0u8; 4096];
    for j in 0..g.ny {
        fill_row(g, xs, vs, lens, region, j, map, &mut row, &mut cover);
    }
}

// Sets each cell whose centre is in the region. xs is scratch, a number for each column.
pub fn fill_region(
    g: Grid,
    map: &mut [u8],
    vs: &[f64],
    lens: &[u32],
    region: Region,
    xs: &mut [f64],
)
    requires over { Over g (length map.old) }
    requires held { Held vs.now lens.now region }
    requires nx_in_bounds { g.nx ≤ length xs.old }
    ensures { map.new ≡ fill_region g vs.now lens.now region map.old }
{
    let nx = g.nx;
    centres(g, &mut xs[0..nx]);
    if rises(&xs[0..nx]) {
        fill_rows(g, &xs[0..nx], map, vs, lens, region);
        return;
    }
    fill_plainly(g, map, vs, lens, region);
}
