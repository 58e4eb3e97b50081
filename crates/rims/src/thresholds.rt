// The first number of each column and row, as a distance from the corner: divided by the cell it is at least the
// column's number, and the float before it is not. Guessed and tested, so that no rounding has to be reckoned with.
ghost use Rattle.std.specs.Prelude.{◌≡◌, true, IfSome, ◌+◌, ◌≤◌, ◌<◌, length};
ghost use Rattle.std.specs.Float.{binary64};
ghost use Rattle.std.specs.Float.Ieee.{of_bits, lt};
ghost use Rattle.numbers.specs.Order.{is_finite};
ghost use Rattle.geom.specs.Vec.{f0};
ghost use Rattle.raster.specs.Grid.{Sides};
ghost use Rattle.rims.specs.Boxes.{Apart, First, FirstsTo, Started};

use numbers::cast::float_of;
use raster::grid::Grid;
use spans::edges::is_tame;

// Whether the float of bits b is cell m's first.
fn is_first(cell: f64, m: usize, b: u64) -> bool
    requires cell_value { (is_finite cell ≡ true) × (lt f0 cell ≡ true) }
    requires b_nonzero { (0 < b) × (b < 0x7ff0_0000_0000_0000) }
    ensures { result ≡ true → First cell m (of_bits binary64 b) }
{
    let want = float_of(m);
    let before = f64::from_bits(b - 1) / cell < want;
    let at = want <= f64::from_bits(b) / cell;
    before & at
}

// The first float's bits, if it is among some from b on.
fn first_from(cell: f64, m: usize, b: u64) -> Option<u64>
    requires cell_value { (is_finite cell ≡ true) × (lt f0 cell ≡ true) }
    requires b_nonzero { (0 < b) × (b + 16 < 0x7ff0_0000_0000_0000) }
    ensures { IfSome result (λ k. (k < 0x7ff0_0000_0000_0000) × First cell m (of_bits binary64 k)) }
{
    for k in b..b + 16 {
        if is_first(cell, m, k) {
            return Some(k);
        }
    }
    None
}

// The bits of cell m's first float, if it is found near m cells.
fn first_of(cell: f64, m: usize) -> Option<u64>
    requires { (is_finite cell ≡ true) × (lt f0 cell ≡ true) }
    ensures { IfSome result (λ k. (k < 0x7ff0_0000_0000_0000) × First cell m (of_bits binary64 k)) }
{
    let near = float_of(m) * cell;
    if 0.0 < near {
        let b = f64::to_bits(near);
        if 8 < b {
            if b < 0x7fe0_0000_0000_0000 {
                return first_from(cell, m, b - 8);
            }
        }
    }
    None
}

// Writes the first numbers of the cells below n; whether all were found.
fn fill_firsts(cell: f64, n: usize, w: &mut [f64]) -> bool
    requires cell_value { (is_finite cell ≡ true) × (lt f0 cell ≡ true) }
    requires n_bound { (n ≤ 4096) × (17152 ≤ length w.old) }
    ensures { Apart 8193 12289 w.old w.new × (result ≡ true → FirstsTo cell n w.new) }
{
    for m in 1..n {
        let Some(b) = first_of(cell, m) else {
            return false;
        };
        w[8193 + m] = f64::from_bits(b);
    }
    true
}

// The longer side of the grid.
fn longer(g: Grid) -> usize
    requires { Sides g }
    ensures { (result ≤ 4096) × (g.nx ≤ result) × (g.ny ≤ result) }
{
    if g.nx < g.ny { g.ny } else { g.nx }
}

// Works out the first numbers of all columns and rows.
pub fn fill_thresholds(g: Grid, w: &mut [f64])
    requires { Sides g }
    ensures { Apart 8192 12289 w.old w.new × Started g w.new }
{
    if w.len() < 17152 {
        return;
    }
    w[8192] = 0.0;
    if is_tame(g) {
        if fill_firsts(g.cell, longer(g), w) {
            w[8192] = f64::from_bits(1);
        }
    }
}
