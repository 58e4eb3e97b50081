// A guide tried: its pass goes to the log and to the triples behind the kept ones, and the map is as before,
// for the way to the pass is judged on it.
ghost use Rattle.std.specs.Prelude.{◌≡◌, ◌/◌, ◌≤◌, length};
ghost use Rattle.geom.specs.Points.{points};
ghost use Rattle.raster.specs.Log.{st, Ready};
ghost use Rattle.setup.specs.Layout.{guide_from, rim_from};
ghost use Rattle.setup.specs.Place.{Walls, allowed_at, cells_of};
ghost use Rattle.setup.specs.Tables.{Tables};
ghost use Rattle.links.specs.Path.{wall_in, Fitted};
ghost use Rattle.passes.specs.Simulate.{Usable};
ghost use Rattle.passes.specs.Guide.{blend_in, laid_in, Ahead};
ghost use Rattle.passes.specs.Attempt.{ans, answered, outcome_of, start_by};

use super::guide::lay_guide;
use super::trial::simulate;
use super::worth::worth;
use setup::{Setup, layout};

// What became of a guide: the triples of its pass do not fit; a pass of so many points that is to be kept,
// the cells that it removes and the work; or no such pass, and the work. A Result of an Option would say the work twice.
#[derive(Clone, Copy)]
pub enum Attempt {
    Full,
    Worth(usize, usize, usize),
    Nothing(usize),
}

pub fn try_guide(
    s: Setup,
    wall: &[f64],
    vs: &[f64],
    lens: &[u32],
    rim: &[f64],
    guide: &[f64],
    map: &mut [u8],
    log: &mut [u32],
    triples: &mut [f64],
    kept: usize,
) -> Attempt
    requires walls { Walls s wall.now vs.now lens.now }
    requires tables { Tables s rim.now }
    requires usable { Usable s map.old log.old guide.now }
    ensures map_unchanged { map.new ≡ map.old }
    ensures result_after { ans log.new triples.new result ≡ answered (outcome_of s (allowed_at s wall.now vs.now lens.now) (points 0 (length guide.now / 2) guide.now) kept map.old log.old triples.old) }
{
    let g = s.grid;
    let cell = g.cell;
    // They hold to the pass's end: it only clears.
    let mut tiles = [0u8; 20480];
    rims::tiles::fill(g, map, &mut tiles);
    let t = simulate(
        s, wall, vs, lens, rim, guide, map, &tiles, log, triples, kept,
    );
    raster::log::undo(map, &log[..t.removed]);
    if t.full {
        return Attempt::Full;
    }
    if worth(cell, triples, kept, t.points, t.removed) {
        return Attempt::Worth(t.points, t.removed, t.work);
    }
    Attempt::Nothing(t.work)
}

// The piece of m points at `from` of the workspace, tried from its point `start` on: its guide of n points
// is laid in the workspace, and tried where a way out serves.
pub fn try_start(
    s: Setup,
    vs: &[f64],
    lens: &[u32],
    map: &mut [u8],
    log: &mut [u32],
    w: &mut [f64],
    triples: &mut [f64],
    kept: usize,
    from: usize,
    m: usize,
    start: usize,
    n: usize,
) -> Attempt
    requires fitted { Fitted s vs.now lens.now map.old w.old }
    requires ready { Ready (st map.old log.old 0) }
    requires ahead { Ahead from m start n (guide_from (cells_of s)) (rim_from (cells_of s)) }
    requires le_n { 1 ≤ n }
    ensures map_unchanged { map.new ≡ map.old }
    ensures w_after { w.new ≡ laid_in s vs.now lens.now map.old (cells_of s) from m start n (guide_from (cells_of s)) w.old }
    ensures result_after { ans log.new triples.new result ≡ answered (start_by s (allowed_at s (wall_in s w.old) vs.now lens.now) (blend_in s vs.now lens.now map.old (cells_of s) from m start n w.old) kept map.old log.old triples.old) }
{
    let cells = layout::cells(s.grid);
    let at = layout::guide(cells);
    if lay_guide(s, vs, lens, map, w, cells, from, m, start, n, at) {
        let e = at + 2 * n;
        let rim = layout::rim(cells);
        let end = rim + (8 * cells + 8192);
        return try_guide(
            s,
            &w[0..cells],
            vs,
            lens,
            &w[rim..end],
            &w[at..e],
            map,
            log,
            triples,
            kept,
        );
    }
    Attempt::Nothing(0)
}
