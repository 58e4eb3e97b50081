// Entering by a helix: its disk cleared, and its row listed.
ghost use Rattle.std.specs.Prelude.{◌≡◌, [], ◌+◌, ◌*◌, ◌≤◌, length};
ghost use Rattle.loops.specs.Frame.{Only};
ghost use Rattle.raster.specs.Grid.{Sides};
ghost use Rattle.setup.specs.Layout.{map_from, heap_from, segments_from, map_in, allowed_in};
ghost use Rattle.setup.specs.Place.{cells_of};
ghost use Rattle.links.specs.Path.{wall_in};
ghost use Rattle.events.specs.Replay.{helix_end};
ghost use Rattle.cutting.specs.Piece.{Listed};
ghost use Rattle.workspace.specs.Standing.{reach_in, abandoned_in, Standing};
ghost use Rattle.helix.specs.Enter.{left_in, listed_of, helix_of, Settled};

use super::search::find;
use cutting::listing::{Full, room};
use cutting::piece::State;
use events::list::{Kind, put_row, put_triple};
use geom::vec2::Vec2;
use setup::{Setup, layout};

// Where a helix leaves the tool: its y is summed too.
fn end_of(c: Vec2, radius: f64) -> Vec2
    ensures { result ≡ helix_end c radius }
{
    c.add(Vec2 { x: radius, y: 0.0 })
}

// Enters by a helix at c, where its triple and its row fit.
fn bore(
    s: Setup,
    t: State,
    b: &mut [u8],
    triples: &mut [f64],
    rows: &mut [u32],
    c: Vec2,
    radius: f64,
    given_up: usize,
) -> Result<(Option<State>, usize), Full>
    requires sides { Sides s.grid }
    requires s_in_bounds { 8 * cells_of s ≤ length b.old }
    requires listed { Listed rows.old triples.old t 0 }
    ensures result_after { left_in (cells_of s) b.new rows.new triples.new result ≡ (listed_of s t (map_in (cells_of s) b.old) (abandoned_in (cells_of s) b.old) rows.old triples.old c radius given_up []).left }
    ensures only { Only (map_from (cells_of s)) (map_from (cells_of s) + cells_of s) b.old b.new }
{
    let first = t.triples;
    let row = t.rows;
    room(triples.len() / 3 - first, rows.len() / 3 - row, 0, 1)?;
    let g = s.grid;
    let n = s.grid.ny * s.grid.nx;
    raster::clear::clear_disk(g, &mut b[0..n], c, radius + s.r);
    put_triple(triples, first, c, radius);
    put_row(rows, row, Kind::Helix, first as u32, 1);
    let entered = State {
        pos: Some(end_of(c, radius)),
        rows: row + 1,
        triples: first + 1,
        ..t
    };
    Ok((Some(entered), given_up))
}

// Enters by a helix where there is room for one: the state then, and how many places were given up before; `pref` is
// the radius that is preferred. Cells where there is none are given up. The flood's stack lies where the heap does.
pub fn enter(
    s: Setup,
    t: State,
    vs: &[f64],
    lens: &[u32],
    pref: f64,
    b: &mut [u8],
    u: &mut [u32],
    w: &[f64],
    triples: &mut [f64],
    rows: &mut [u32],
) -> Result<(Option<State>, usize), Full>
    requires standing { Standing s vs.now lens.now b.old u.old w.now }
    requires listed { Listed rows.old triples.old t 0 }
    ensures result_after { left_in (cells_of s) b.new rows.new triples.new result ≡ (helix_of s (wall_in s w.now) vs.now lens.now (allowed_in (cells_of s) b.old) (reach_in (cells_of s) b.old) pref t (map_in (cells_of s) b.old) (abandoned_in (cells_of s) b.old) rows.old triples.old).left }
    ensures settled { Settled (cells_of s) b.old b.new }
    ensures only { Only (heap_from (cells_of s)) (segments_from (cells_of s)) u.old u.new }
{
    let n = s.grid.ny * s.grid.nx;
    let heap = layout::before(n) + n;
    let end = layout::segments(n);
    let (found, given_up) = find(s, &w[0..n], vs, lens, pref, b, &mut u[heap..end]);
    let Some((c, radius)) = found else {
        return Ok((None, given_up));
    };
    bore(s, t, b, triples, rows, c, radius, given_up)
}
