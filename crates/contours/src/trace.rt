// The curves where a field of the cells crosses a level (`contours` of the Rust).
ghost use Rattle.std.specs.Prelude.{◌*◌, ◌≤◌, length};
ghost use Rattle.raster.specs.Grid.{Over};
ghost use Rattle.contours.specs.Curve.{contours_of};
ghost use Rattle.contours.specs.Traced.{Sized, Contoured};

use super::chain::chain_all;
use super::tables::tabulate;
use pieces::row::Count;
use raster::grid::Grid;
use setup::layout::cells;

// The pieces, open ones first: rows in the words, points in `pts`. Marks and words are scratch beside.
pub fn contours(
    g: Grid,
    f: &[f32],
    level: f32,
    words: &mut [u32],
    marks: &mut [u8],
    pts: &mut [f64],
) -> Count
    requires over { Over g (length f.now) }
    requires sized { Sized g (g.ny * g.nx) words.old marks.old }
    requires nx_in_bounds { 4 * (g.ny * g.nx) ≤ length pts.old }
    ensures { Contoured (g.ny * g.nx) (contours_of g f.now level) words.old pts.old words.new pts.new result }
{
    let n = cells(g);
    let m = tabulate(g, f, level, n, words, marks);
    let none = Count {
        pieces: 0,
        points: 0,
    };
    let open = chain_all(g, f, level, n, m, words, marks, pts, none, true);
    chain_all(g, f, level, n, m, words, marks, pts, open, false)
}
