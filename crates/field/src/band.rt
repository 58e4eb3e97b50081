// Bands of rows and of columns: a round of the field goes by those near to a cell that was cut.
ghost use Rattle.std.specs.Prelude.{◌≡◌, Some, ◌*◌, ◌≤◌, ◌<◌, length};
ghost use Rattle.raster.specs.Grid.{Sides};
ghost use Rattle.field.specs.Bands.{widened, Margin, Unmarked, MarkedRows, MarkedColumns, RowsOf, Around};

use dilation::window::Window;
use raster::grid::Grid;
use rims::tiles::gather_rows;

// The rows, or the columns, from lo on, before hi.
#[derive(Clone, Copy)]
pub struct Band {
    pub lo: usize,
    pub hi: usize,
}

// How many rows apart cells of a map of ny rows can be whose squares are below a limit: all of them, where none
// is told. So it is of columns.
pub fn margin(below: Option<u32>, ny: usize) -> usize
    requires { ny ≤ 4096 }
    ensures { Margin below ny result }
{
    if let Some(below) = below {
        let below = below as usize;
        for m in 0..ny {
            let next = m + 1;
            if below <= next * next {
                return m;
            }
        }
    }
    ny
}

// With m rows more on either side, cut to a map of ny rows.
pub fn widen(band: Band, m: usize, ny: usize) -> Band
    requires { (band.hi ≤ 4096) × (m ≤ 4096) }
    ensures { result ≡ widened ny m band }
{
    let less = band.lo.min(m);
    Band {
        lo: band.lo - less,
        hi: (band.hi + m).min(ny),
    }
}

// The first mark, or where the marks end.
fn first_of(marks: &[u8]) -> usize
    ensures { (result ≤ length marks.now) × Unmarked marks.now 0 result }
{
    marks
        .iter()
        .position(|mark| *mark == 1)
        .unwrap_or(marks.len())
}

// Behind the last mark, or 0.
fn end_of(marks: &[u8]) -> usize
    ensures { (result ≤ length marks.now) × Unmarked marks.now result (length marks.now) }
{
    for k in (0..marks.len()).rev() {
        if marks[k] == 1 {
            return k + 1;
        }
    }
    0
}

// From the first row that has a mark to the last, of ny rows of nx cells.
fn marked_rows(nx: usize, ny: usize, marks: &[u8]) -> Band
    requires nx_nonzero { 0 < nx }
    requires marks_len { length marks.now ≡ ny * nx }
    ensures { MarkedRows marks.now nx ny result }
{
    let first = first_of(marks);
    let end = end_of(marks);
    if first < end {
        let last = end - 1;
        return Band {
            lo: first / nx,
            hi: last / nx + 1,
        };
    }
    Band { lo: 0, hi: 0 }
}

// From the first column that has a mark in these rows to the last.
fn marked_columns(g: Grid, rows: Band, marks: &[u8]) -> Band
    requires sides { Sides g }
    requires marks_len { length marks.now ≡ g.ny * g.nx }
    requires rows_of { RowsOf g.ny rows }
    ensures { MarkedColumns marks.now g.nx rows result }
{
    let mut cols = [0u8; 4096];
    let nx = g.nx;
    gather_rows(g, marks, rows.lo, rows.hi, &mut cols);
    marked_rows(1, nx, &cols[0..nx])
}

// The window outside of which no cell's square of the distance to a mark is below the limit.
pub fn around(g: Grid, below: u32, marks: &[u8]) -> Window
    requires sides { Sides g }
    requires marks_len { length marks.now ≡ g.ny * g.nx }
    ensures { Around marks.now g.nx g.ny below result }
{
    let rows = marked_rows(g.nx, g.ny, marks);
    let cols = marked_columns(g, rows, marks);
    let m = margin(Some(below), g.ny);
    let n = margin(Some(below), g.nx);
    if (rows.lo < rows.hi) & (cols.lo < cols.hi) {
        let r = widen(rows, m, g.ny);
        let c = widen(cols, n, g.nx);
        return Window {
            lo: r.lo,
            hi: r.hi,
            left: c.lo,
            right: c.hi,
        };
    }
    Window {
        lo: 0,
        hi: 0,
        left: 0,
        right: 0,
    }
}
