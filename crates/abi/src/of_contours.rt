// The functions of `contours` and `smoothing`. A grid goes in as its corner, its cell and its sides.
ghost use Rattle.std.specs.Prelude.{◌≡◌, ◌*◌, ◌≤◌, length};
ghost use Rattle.raster.specs.Grid.{Over};
ghost use Rattle.pieces.specs.Piece.{pieces_at, Laid};
ghost use Rattle.contours.specs.Curve.{contours_of};
ghost use Rattle.contours.specs.Places.{rows_in};
ghost use Rattle.contours.specs.Traced.{Sized};
ghost use Rattle.smoothing.specs.Smooth.{SmoothedAll};
ghost use Rattle.abi.specs.Raster.{grid};

use geom::vec2::Vec2;
use raster::grid::Grid;

// The number of pieces; their rows are the last third of the words.
#[unsafe(no_mangle)]
pub extern "C" fn contours_trace(
    ox: f64,
    oy: f64,
    cell: f64,
    nx: usize,
    ny: usize,
    f: &[f32],
    level: f32,
    words: &mut [u32],
    marks: &mut [u8],
    pts: &mut [f64],
) -> usize
    requires over { Over (grid ox oy cell nx ny) (length f.now) }
    requires sized { Sized (grid ox oy cell nx ny) (ny * nx) words.old marks.old }
    requires nx_in_bounds { 4 * (ny * nx) ≤ length pts.old }
    ensures { pieces_at result (rows_in (ny * nx) words.new) pts.new ≡ contours_of (grid ox oy cell nx ny) f.now level }
{
    let origin = Vec2 { x: ox, y: oy };
    let g = Grid {
        origin,
        cell,
        nx,
        ny,
    };
    let c = contours::trace::contours(g, f, level, words, marks, pts);
    c.pieces
}

// Smooths the m pieces in the rows.
#[unsafe(no_mangle)]
pub extern "C" fn contours_smooth(rows: &mut [u32], pts: &mut [f64], m: usize, cell: f64)
    requires { Laid m rows.old pts.old }
    ensures { SmoothedAll m cell rows.old pts.old rows.new pts.new }
{
    smoothing::smooth::smooth_all(rows, pts, m, cell);
}
