// Where the tool may go.
ghost use Rattle.std.specs.Prelude.{◌≡◌, ◌+◌, ◌*◌, ◌≤◌, ◌<◌, length};
ghost use Rattle.loops.specs.Regions.{within};
ghost use Rattle.setup.specs.Layout.{put_run};
ghost use Rattle.setup.specs.Place.{cells_of};
ghost use Rattle.start.specs.Start.{inside_of, clear_at, allowed_of};
ghost use Rattle.start.specs.Steps.{inside_in, Placed, may_byte};
ghost use Rattle.start.specs.Blocks.{Known};

use super::blocks::{Block, block_of, is_plain};
use raster::grid::{CellNo, cell_at, center, column_of, row_of};
use setup::{Setup, layout};

// The exact test of the centre of a cell that is filled, so that it is in the region: at least `keep` from
// every wall. No wall is near it where its block is apart from all.
fn is_clear(s: Setup, vs: &[f64], lens: &[u32], c: CellNo, apart: bool) -> bool
    requires placed { Placed s vs.now lens.now }
    requires known { Known s vs.now lens.now c.0 1 apart }
    ensures { result ≡ clear_at s vs.now lens.now c.0 }
{
    if apart {
        return true;
    }
    let g = s.grid;
    let region = s.region;
    let keep = s.keep;
    let q = center(g, column_of(g, c), row_of(g, c));
    !geom::segment::any_within(vs, lens, region, q, keep)
}

// Whether the tool may be at a cell's centre, its byte inside and its wall distance given: cells that are
// sure to be too near a wall need no exact test.
fn may_be(s: Setup, vs: &[f64], lens: &[u32], c: CellNo, inside: u8, wall: f64, apart: bool) -> u8
    requires placed { Placed s vs.now lens.now }
    requires known { Known s vs.now lens.now c.0 inside apart }
    ensures { result ≡ may_byte s vs.now lens.now c.0 inside wall }
{
    if inside != 1 {
        return 0;
    }
    if wall + s.grid.cell < s.keep.r {
        return 0;
    }
    if is_clear(s, vs, lens, c, apart) {
        return 1;
    }
    0
}

pub fn fill_allowed(s: Setup, vs: &[f64], lens: &[u32], b: &mut [u8], w: &[f64])
    requires placed { Placed s vs.now lens.now }
    requires s_in_bounds { 8 * cells_of s ≤ length b.old }
    requires s_in_bounds_2 { cells_of s ≤ length w.now }
    requires b_value { inside_in (cells_of s) b.old ≡ inside_of s.grid vs.now lens.now s.region }
    ensures { b.new ≡ put_run 1 (cells_of s) (allowed_of s vs.now lens.now (inside_in (cells_of s) b.old) (within 0 (cells_of s) w.now)) b.old }
{
    let n = layout::cells(s.grid);
    let i = layout::inside(n);
    let a = layout::allowed(n);
    let plain = is_plain(s);
    let mut block = Block {
        upto: 0,
        apart: false,
    };
    for k in 0..n {
        let c = cell_at(k);
        block = block_of(s, vs, lens, plain, c, block);
        b[a + k] = may_be(s, vs, lens, c, b[i + k], w[k], block.apart);
    }
}
