// The squares that a round of the field goes by, or words that stand for them: of the distance to stock and to cells that
// were cut. Each map is gone through in the window alone that matters; where a limit is not told, in its rows.
ghost use Rattle.std.specs.Prelude.{◌≡◌, false, ◌+◌, ◌*◌, ◌≤◌, ◌<◌, length};
ghost use Rattle.dilation.specs.Window.{Takes};
ghost use Rattle.raster.specs.Grid.{Sides};
ghost use Rattle.setup.specs.Layout.{dirty_in};
ghost use Rattle.setup.specs.Place.{cells_of};
ghost use Rattle.field.specs.Bands.{RowsOf, MarkedRows, rows_of, columns_of, WantedIn};
ghost use Rattle.field.specs.Squares.{squares_put, StockedRows, NearedRows, Stocked, Neared, Measured};

use super::band::{Band, around, margin, widen};
use super::gauge::Gauge;
use dilation::window::{Bounds, Window, bound, shade};
use raster::grid::Grid;
use setup::layout;

// The window in which a cell may be wanted.
pub fn wanted_window(g: Gauge, b: &[u8]) -> Window
    requires sides { Sides g.setup.grid }
    requires setup_in_bounds { 5 * cells_of g.setup ≤ length b.now }
    ensures { WantedIn g.setup g.all (dirty_in (cells_of g.setup) b.now) result }
{
    let grid = g.setup.grid;
    if !g.all {
        if let Some(below) = g.near.below {
            let n = layout::cells(grid);
            let a = layout::dirty(n);
            let e = a + n;
            return around(grid, below, &b[a..e]);
        }
    }
    Window {
        lo: 0,
        hi: grid.ny,
        left: 0,
        right: grid.nx,
    }
}

// The squares of the distance to cells that are marked in a band's rows of the bytes from a on, written to
// the same rows of the words from c on; the transform's scratch is behind them.
fn squares(g: Grid, band: Band, b: &[u8], a: usize, u: &mut [u32], c: usize)
    requires sides { Sides g }
    requires lo_lt_hi { (band.lo < band.hi) × (band.hi ≤ g.ny) }
    requires nx_in_bounds { a + g.ny * g.nx ≤ length b.now }
    requires nx_in_bounds_2 { c + (g.ny * g.nx + 3 * g.nx) ≤ length u.old }
    ensures { u.new ≡ squares_put g.nx band a c b.now u.old }
{
    let nx = g.nx;
    let lo = band.lo * nx;
    let hi = band.hi * nx;
    let from = a + lo;
    let to = a + hi;
    let start = c + lo;
    let end = c + (hi + 3 * nx);
    distance::transform(&b[from..to], 1, nx, band.hi - band.lo, &mut u[start..end]);
}

// To stock, as far as it matters to the cells of a band.
fn stock_squares(g: Gauge, band: Band, b: &[u8], u: &mut [u32])
    requires sides { Sides g.setup.grid }
    requires lo_lt_hi { (band.lo < band.hi) × (band.hi ≤ g.setup.grid.ny) }
    requires setup_in_bounds { cells_of g.setup ≤ length b.now }
    requires setup_in_bounds_2 { 5 * cells_of g.setup ≤ length u.old }
    ensures { StockedRows g.setup band b.now u.old u.new }
{
    let grid = g.setup.grid;
    let ny = grid.ny;
    let m = margin(g.far.below, ny);
    let wide = widen(band, m, ny);
    squares(grid, wide, b, 0, u, 0);
}

// To cells that were cut, all of which are in the band.
fn near_squares(g: Grid, band: Band, b: &[u8], u: &mut [u32])
    requires sides { Sides g }
    requires lo_lt_hi { band.lo < band.hi }
    requires nx_in_bounds { 5 * (g.ny * g.nx) ≤ length b.now }
    requires nx_in_bounds_2 { 5 * (g.ny * g.nx) ≤ length u.old }
    requires marked_rows { MarkedRows (dirty_in (g.ny * g.nx) b.now) g.nx g.ny band }
    ensures { NearedRows g band b.now u.old u.new }
{
    let n = layout::cells(g);
    let a = layout::dirty(n);
    let c = layout::near(n);
    squares(g, band, b, a, u, c);
}

// What stands for the squares to stock in a window, by the stock around it.
fn shade_stock(g: Gauge, w: Window, e: Bounds, b: &[u8], u: &mut [u32])
    requires sides { Sides g.setup.grid }
    requires rows_of { RowsOf g.setup.grid.ny (rows_of w) × RowsOf g.setup.grid.nx (columns_of w) }
    requires setup_in_bounds { (cells_of g.setup ≤ length b.now) × (5 * cells_of g.setup ≤ length u.old) }
    requires far { Takes g.far e.far }
    requires deep { Takes g.deep e.near }
    ensures { Stocked g.setup w b.now u.old u.new }
{
    let grid = g.setup.grid;
    let n = layout::cells(grid);
    let m = margin(g.far.below, grid.ny);
    let k = margin(g.far.below, grid.nx);
    let rows = widen(Band { lo: w.lo, hi: w.hi }, m, grid.ny);
    let cols = widen(
        Band {
            lo: w.left,
            hi: w.right,
        },
        k,
        grid.nx,
    );
    let wide = Window {
        lo: rows.lo,
        hi: rows.hi,
        left: cols.lo,
        right: cols.hi,
    };
    shade(&b[0..n], grid.nx, wide, 1, 0, e, &mut u[0..n]);
}

fn stock_words(g: Gauge, w: Window, b: &[u8], u: &mut [u32])
    requires sides { Sides g.setup.grid }
    requires rows_of { RowsOf g.setup.grid.ny (rows_of w) × RowsOf g.setup.grid.nx (columns_of w) × (w.lo < w.hi) }
    requires setup_in_bounds { (cells_of g.setup ≤ length b.now) × (5 * cells_of g.setup ≤ length u.old) }
    ensures { Stocked g.setup w b.now u.old u.new }
{
    if let (Some(far), Some(near)) = (bound(g.far), bound(g.deep)) {
        shade_stock(g, w, Bounds { near, far }, b, u);
        return;
    }
    stock_squares(g, Band { lo: w.lo, hi: w.hi }, b, u);
}

// What stands for the squares to cells that were cut, all of which are in the window.
fn shade_near(g: Gauge, w: Window, far: u32, b: &[u8], u: &mut [u32])
    requires sides { Sides g.setup.grid }
    requires wanted_in { WantedIn g.setup false (dirty_in (cells_of g.setup) b.now) w }
    requires setup_in_bounds { (5 * cells_of g.setup ≤ length b.now) × (5 * cells_of g.setup ≤ length u.old) }
    requires takes { Takes g.near far }
    ensures { Neared g.setup w b.now u.old u.new }
{
    let grid = g.setup.grid;
    let n = layout::cells(grid);
    let a = layout::dirty(n);
    let e = a + n;
    let c = layout::near(n);
    let d = c + n;
    let bounds = Bounds { near: 0, far };
    shade(&b[a..e], grid.nx, w, 1, 0, bounds, &mut u[c..d]);
}

fn near_words(g: Gauge, w: Window, b: &[u8], u: &mut [u32])
    requires sides { Sides g.setup.grid }
    requires wanted_in { WantedIn g.setup false (dirty_in (cells_of g.setup) b.now) w × (w.lo < w.hi) }
    requires setup_in_bounds { (5 * cells_of g.setup ≤ length b.now) × (5 * cells_of g.setup ≤ length u.old) }
    ensures { Neared g.setup w b.now u.old u.new }
{
    if let Some(far) = bound(g.near) {
        shade_near(g, w, far, b, u);
        return;
    }
    near_squares(g.setup.grid, Band { lo: w.lo, hi: w.hi }, b, u);
}

// Both, or the first alone where all cells are worked out anew.
pub fn measure(g: Gauge, w: Window, b: &[u8], u: &mut [u32])
    requires sides { Sides g.setup.grid }
    requires setup_in_bounds { 5 * cells_of g.setup ≤ length b.now }
    requires setup_in_bounds_2 { 5 * cells_of g.setup ≤ length u.old }
    requires wanted_in { WantedIn g.setup g.all (dirty_in (cells_of g.setup) b.now) w }
    ensures { Measured g.setup g.all w b.now u.old u.new }
{
    if w.lo < w.hi {
        stock_words(g, w, b, u);
        if g.all {
            return;
        }
        near_words(g, w, b, u);
    }
}
