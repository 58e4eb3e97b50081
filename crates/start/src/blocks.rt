// Cells of a row that are asked about the walls together.
ghost use Rattle.std.specs.Prelude.{◌≡◌, true, ◌+◌, ◌<◌};
ghost use Rattle.start.specs.Steps.{Placed};
ghost use Rattle.start.specs.Blocks.{Plain, Told};

use geom::apart::{all_apart, is_rooted};
use geom::region::Corners;
use numbers::order::is_finite;
use raster::grid::{CellNo, center, column_of, index_of, row_of};
use setup::Setup;

// Cells up to `upto`, and whether no edge of the region is within `keep` of the centre of any of them.
#[derive(Clone, Copy)]
pub struct Block {
    pub upto: usize,
    pub apart: bool,
}

// Whether centres rise along a row, and boxes tell what is within `keep`.
pub fn is_plain(s: Setup) -> bool
    ensures { result ≡ true → Plain s }
{
    let g = s.grid;
    let origin = g.origin;
    let corner = is_finite(origin.x) & is_finite(origin.y);
    let positive = is_finite(g.cell) & (0.0 < g.cell);
    (corner & positive) & is_rooted(s.keep.r)
}

// How many cells a block has after that of column i: up to 31, and none of the next row.
fn more_from(nx: usize, i: usize) -> usize
    requires { i < nx }
    ensures { i + result < nx }
{
    (nx - 1 - i).min(31)
}

// The block from cell c on: its box goes from the first centre to the last.
fn block_at(s: Setup, vs: &[f64], lens: &[u32], c: CellNo) -> Block
    requires placed { Placed s vs.now lens.now }
    requires plain { Plain s }
    ensures { Told s vs.now lens.now c.0 result × (c.0 < result.upto) }
{
    let g = s.grid;
    let i = column_of(g, c);
    let j = row_of(g, c);
    let more = more_from(g.nx, i);
    let lo = center(g, i, j);
    let hi = center(g, i + more, j);
    let corners = Corners { lo, hi };
    let region = s.region;
    Block {
        upto: index_of(c) + more + 1,
        apart: all_apart(vs, lens, region, corners, s.keep.r),
    }
}

// The block that cell c is in, where `b` is that of the cell before.
pub fn block_of(s: Setup, vs: &[f64], lens: &[u32], plain: bool, c: CellNo, b: Block) -> Block
    requires placed { Placed s vs.now lens.now }
    requires plain { plain ≡ true → Plain s }
    requires told { Told s vs.now lens.now c.0 b }
    ensures { Told s vs.now lens.now c.0 result × (result.apart ≡ true → c.0 < result.upto) }
{
    if index_of(c) < b.upto {
        return b;
    }
    if plain {
        return block_at(s, vs, lens, c);
    }
    Block {
        upto: 0,
        apart: false,
    }
}
