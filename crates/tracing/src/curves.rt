// The curves of a field in the workspace: its pieces' rows and points, and their smoothing.
ghost use Rattle.std.specs.Prelude.{◌≡◌, map, ◌+◌, ◌*◌, ◌≤◌, length};
ghost use Rattle.loops.specs.Frame.{Only};
ghost use Rattle.raster.specs.Grid.{Over};
ghost use Rattle.setup.specs.Layout.{most, rows_from, log_from, traced_from, guide_from};
ghost use Rattle.pieces.specs.Piece.{Laid};
ghost use Rattle.contours.specs.Curve.{contours_of};
ghost use Rattle.smoothing.specs.Smooth.{smoothed};
ghost use Rattle.workspace.specs.Lies.{rows_in, traced_in, pieces_in, Lying, Lies};
ghost use Rattle.tracing.specs.Curves.{Room, Laying, Beside};

use pieces::row::Count;
use raster::grid::Grid;
use setup::layout;

// Traces the curves where f crosses the level.
pub fn trace(g: Grid, f: &[f32], level: f32, b: &mut [u8], u: &mut [u32], w: &mut [f64]) -> Count
    requires over { Over g (length f.now) }
    requires room { Room (g.ny * g.nx) b.old u.old w.old }
    ensures laying { Laying (g.ny * g.nx) (contours_of g f.now level) result.pieces result.points u.new w.new }
    ensures beside { Beside (g.ny * g.nx) b.old u.old w.old b.new u.new w.new }
{
    let n = layout::cells(g);
    let segments = layout::segments(n);
    let log = layout::log(n);
    let marks = layout::marks(n);
    let traced = layout::traced(n);
    let guide = layout::guide(n);
    contours::trace::contours(
        g,
        f,
        level,
        &mut u[segments..log],
        &mut b[marks..marks + 2 * n],
        &mut w[traced..guide],
    )
}

// Smooths the pieces of the first m rows.
pub fn smooth(n: usize, m: usize, cell: f64, u: &mut [u32], w: &mut [f64])
    requires n_le_most { n ≤ most }
    requires n_in_bounds { 32 * n + 8192 ≤ length u.old }
    requires n_in_bounds_2 { 32 * n + 8192 ≤ length w.old }
    requires lying { Lying n m u.old }
    requires laid { Laid m (rows_in n u.old) (traced_in n w.old) }
    ensures lies { Lies n (map (smoothed cell) (pieces_in n m u.old w.old)) m u.new w.new }
    ensures only { Only (rows_from n) (log_from n) u.old u.new }
    ensures only_2 { Only (traced_from n) (guide_from n) w.old w.new }
{
    let rows = workspace::places::rows(n);
    let log = layout::log(n);
    let traced = layout::traced(n);
    let guide = layout::guide(n);
    smoothing::smooth::smooth_all(&mut u[rows..log], &mut w[traced..guide], m, cell);
}
