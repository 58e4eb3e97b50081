// A row of the map filled in: the columns of the outer loop that no island covers.
ghost use Rattle.std.specs.Prelude.{◌≡◌, ◌+◌, ◌*◌, ◌≤◌, ◌<◌, length};
ghost use Rattle.loops.specs.Loop.{loop};
ghost use Rattle.geom.specs.Region.{Held};
ghost use Rattle.raster.specs.Grid.{Over};
ghost use Rattle.filling.specs.Fill.{fill_row};
ghost use Rattle.filling.specs.Columns.{Centred, Rising, Shows, nowhere, Blank, paint_at, free_at, shown_at, in_loop, on_island, Covered, Joined, Islands, InRow, Put};

use super::columns::{Columns, columns_of};
use geom::region::{Region, size};
use raster::disk::row_y;
use raster::grid::Grid;

// The bytes base + a on below base + b become v.
fn paint(l: &mut [u8], base: usize, a: usize, b: usize, v: u8)
    requires { (a ≤ b) × (base + b ≤ length l.old) }
    ensures { l.new ≡ loop (paint_at base v) a b l.old }
{
    l[base + a..base + b].fill(v);
}

// Sets the columns a on below b of the row that begins at base, but for those that are covered. Here and below two slices
// are gone over by index: of a slice that is written through a zip the proof knows only the length.
fn set_free(map: &mut [u8], base: usize, a: usize, b: usize, cover: &[u8])
    requires { (base + b ≤ length map.old) × (b ≤ length cover.now) }
    ensures { map.new ≡ loop (free_at base cover.now) a b map.old }
{
    for i in a..b {
        let m = base + i;
        let old = map[m];
        map[m] = if cover[i] == 1 { old } else { 1 };
    }
}

// The same; then none is covered of the columns below n.
fn set_and_uncover(map: &mut [u8], base: usize, a: usize, b: usize, cover: &mut [u8], n: usize)
    requires { (base + b ≤ length map.old) × (b ≤ n) × (n ≤ length cover.old) }
    ensures { (map.new ≡ loop (free_at base cover.old) a b map.old) × Shows n nowhere cover.new }
{
    set_free(map, base, a, b, cover);
    paint(cover, 0, 0, n, 0);
}

// Sets the columns below n of the row that begins at base whose bytes are 1, and leaves no byte 1.
fn set_shown(map: &mut [u8], base: usize, row: &mut [u8], n: usize)
    requires { (base + n ≤ length map.old) × (n ≤ length row.old) }
    ensures { (map.new ≡ loop (shown_at base row.old) 0 n map.old) × Shows n nowhere row.new }
{
    for i in 0..n {
        let m = base + i;
        let old = map[m];
        map[m] = if row[i] == 1 { 1 } else { old };
        row[i] = 0;
    }
}

// Covers the columns below n whose bytes are 1, or those whose bytes are not, and leaves no byte 1.
fn cover_where(row: &mut [u8], cover: &mut [u8], n: usize, one: bool)
    requires { (n ≤ length row.old) × (n ≤ length cover.old) }
    ensures { Covered n one row.old cover.old row.new cover.new }
{
    for i in 0..n {
        let old = cover[i];
        cover[i] = if (row[i] == 1) == one { 1 } else { old };
        row[i] = 0;
    }
}

// Covers the columns of a loop; whether it has any.
fn cover_loop(
    g: Grid,
    xs: &[f64],
    vs: &[f64],
    at: usize,
    n: usize,
    y: f64,
    row: &mut [u8],
    cover: &mut [u8],
) -> bool
    requires centred { Centred g xs.now }
    requires rising { Rising xs.now }
    requires n_in_bounds { 2 * (at + n) ≤ length vs.now }
    requires blank { Blank (length xs.now) row.old }
    requires xs_in_bounds { length xs.now ≤ length cover.old }
    ensures { Joined (length xs.now) (in_loop xs.now vs.now at n y) result row.new cover.old cover.new }
{
    let c = columns_of(g, xs, vs, at, n, y, row);
    match c {
        Columns::Run(a, b) => {
            paint(cover, 0, a, b, 1);
            a < b
        }
        Columns::Many => {
            cover_where(row, cover, xs.len(), true);
            true
        }
    }
}

// Covers the columns of the islands; whether they have any.
fn cover_islands(
    g: Grid,
    xs: &[f64],
    vs: &[f64],
    lens: &[u32],
    region: Region,
    y: f64,
    row: &mut [u8],
    cover: &mut [u8],
) -> bool
    requires centred { Centred g xs.now }
    requires rising { Rising xs.now }
    requires held { Held vs.now lens.now region }
    requires blank { Blank (length xs.now) row.old }
    requires blank_2 { Blank (length xs.now) cover.old }
    ensures { Islands (length xs.now) (on_island xs.now vs.now lens.now region y) result row.new cover.new }
{
    let first = region.first;
    let start = region.at;
    let mut at = start + size(lens, first);
    let mut some = false;
    for l in 1..region.loops {
        let n = size(lens, first + l);
        some = some | cover_loop(g, xs, vs, at, n, y, row, cover);
        at += n;
    }
    some
}

// Sets the columns c of the row that begins at base, but for those that are covered, if some are; then no byte is 1.
fn set_columns(
    map: &mut [u8],
    base: usize,
    n: usize,
    c: Columns,
    some: bool,
    row: &mut [u8],
    cover: &mut [u8],
)
    requires n_in_bounds { base + n ≤ length map.old }
    requires in_row { InRow n c }
    requires n_in_bounds_2 { (n ≤ length row.old) × (n ≤ length cover.old) }
    ensures { Put n base c some row.old cover.old map.old row.new cover.new map.new }
{
    match c {
        Columns::Run(a, b) => {
            if some {
                set_and_uncover(map, base, a, b, cover, n);
                return;
            }
            paint(map, base, a, b, 1);
        }
        Columns::Many => {
            if some {
                cover_where(row, cover, n, false);
                set_and_uncover(map, base, 0, n, cover, n);
                return;
            }
            set_shown(map, base, row, n);
        }
    }
}

// Row j. The bytes of row and cover are scratch: none is 1 before and after.
pub fn fill_row(
    g: Grid,
    xs: &[f64],
    vs: &[f64],
    lens: &[u32],
    region: Region,
    j: usize,
    map: &mut [u8],
    row: &mut [u8],
    cover: &mut [u8],
)
    requires over { Over g (length map.old) }
    requires j_lt_ny { j < g.ny }
    requires centred { Centred g xs.now × Rising xs.now }
    requires held { Held vs.now lens.now region }
    requires blank { Blank g.nx row.old × Blank g.nx cover.old }
    ensures { (map.new ≡ fill_row g vs.now lens.now region j map.old) × (Blank g.nx row.new × Blank g.nx cover.new) }
{
    let y = row_y(g, j);
    let nx = g.nx;
    let base = j * nx;
    let some = cover_islands(g, xs, vs, lens, region, y, row, cover);
    let n = size(lens, region.first);
    let c = columns_of(g, xs, vs, region.at, n, y, row);
    set_columns(map, base, nx, c, some, row, cover);
}
