// The functions of `cutting`. The state goes in as its numbers; the answer is a kind, and the new state's
// numbers come back in two lent slices.
ghost use Rattle.std.specs.Prelude.{◌≡◌, ◌*◌, ◌≤◌, length};
ghost use Rattle.setup.specs.Layout.{map_in};
ghost use Rattle.links.specs.Path.{Fitted};
ghost use Rattle.cutting.specs.Tries.{Among};
ghost use Rattle.cutting.specs.Piece.{sta, Lends, Listed};
ghost use Rattle.abi.specs.Geom.{region};
ghost use Rattle.abi.specs.Raster.{grid};
ghost use Rattle.abi.specs.Passes.{passing};
ghost use Rattle.abi.specs.Setup.{loose};
ghost use Rattle.abi.specs.Cutting.{place_of, down_of, spot_of, kind_of, put_counts, put_floats, counts_of, floats_of, CutBy};

use super::of_passes::passing;
use cutting::listing::Full;
use cutting::piece::{Cut, State};
use geom::region::Region;
use geom::vec2::Vec2;
use raster::grid::Grid;

fn place(down: bool, x: f64, y: f64) -> Option<Vec2>
    ensures { result ≡ place_of down x y }
{
    if down {
        return Some(Vec2 { x, y });
    }
    None
}

fn is_down(p: Option<Vec2>) -> u64
    ensures { result ≡ down_of p }
{
    match p {
        Some(_) => 1,
        None => 0,
    }
}

fn spot(p: Option<Vec2>) -> Vec2
    ensures { result ≡ spot_of p }
{
    p.unwrap_or(Vec2 { x: 0.0, y: 0.0 })
}

// Counts: whether the tool is somewhere, rows, triples, work. Floats: the tool's place, the greatest contact.
fn put_state(t: State, counts: &mut [u64], floats: &mut [f64])
    requires in_bounds { 4 ≤ length counts.old }
    requires in_bounds_2 { 3 ≤ length floats.old }
    ensures counts_after { counts.new ≡ put_counts t counts.old }
    ensures floats_after { floats.new ≡ put_floats t floats.old }
{
    let pos = t.pos;
    let p = spot(pos);
    counts[0] = is_down(pos);
    counts[1] = t.rows as u64;
    counts[2] = t.triples as u64;
    counts[3] = t.work as u64;
    floats[0] = p.x;
    floats[1] = p.y;
    floats[2] = t.planned_max;
}

// The kind of an answer; its state, if it has one, is put down.
fn put_cut(c: Result<Cut, Full>, counts: &mut [u64], floats: &mut [f64]) -> u32
    requires in_bounds { 4 ≤ length counts.old }
    requires in_bounds_2 { 3 ≤ length floats.old }
    ensures value { result ≡ kind_of c }
    ensures counts_after { counts.new ≡ counts_of c counts.old }
    ensures floats_after { floats.new ≡ floats_of c floats.old }
{
    let cut = match c {
        Ok(cut) => cut,
        Err(full) => return full.into(),
    };
    match cut {
        Cut::Nothing(t) => {
            put_state(t, counts, floats);
            0
        }
        Cut::Kept(t) => {
            put_state(t, counts, floats);
            1
        }
    }
}

// Cuts a piece in a workspace: 0 nothing worth it, 1 a pass kept, 16 or 17 refused.
#[unsafe(no_mangle)]
pub extern "C" fn cutting_cut_piece(
    ox: f64,
    oy: f64,
    cell: f64,
    nx: usize,
    ny: usize,
    vs: &[f64],
    lens: &[u32],
    at: usize,
    first: usize,
    loops: usize,
    r: f64,
    wide: f64,
    keep: f64,
    target: f64,
    guard: f64,
    samples: usize,
    keep_down: bool,
    down: bool,
    x: f64,
    y: f64,
    listed_rows: usize,
    listed_triples: usize,
    planned_max: f64,
    work: usize,
    b: &mut [u8],
    u: &mut [u32],
    w: &mut [f64],
    triples: &mut [f64],
    rows: &mut [u32],
    from: usize,
    m: usize,
    closed: bool,
    counts: &mut [u64],
    floats: &mut [f64],
) -> u32
    requires fitted { Fitted (passing (grid ox oy cell nx ny) (region at first loops) r wide (loose keep) target guard samples keep_down) vs.now lens.now (map_in (ny * nx) b.old) w.old }
    requires lends { Lends (ny * nx) b.old u.old }
    requires among { Among (ny * nx) from m }
    requires listed { Listed rows.old triples.old (sta (place_of down x y) listed_rows listed_triples planned_max work) 0 }
    requires in_bounds { 4 ≤ length counts.old }
    requires in_bounds_2 { 3 ≤ length floats.old }
    ensures { CutBy (λ k. passing (grid ox oy cell nx ny) (region at first loops) r wide k target guard samples keep_down) keep vs.now lens.now (sta (place_of down x y) listed_rows listed_triples planned_max work) from m closed b.old u.old w.old rows.old triples.old b.new u.new rows.new triples.new result counts.old counts.new floats.old floats.new }
{
    let origin = Vec2 { x: ox, y: oy };
    let g = Grid {
        origin,
        cell,
        nx,
        ny,
    };
    let s = passing(
        g,
        Region { at, first, loops },
        r,
        wide,
        keep,
        target,
        guard,
        samples,
        keep_down,
    );
    let t = State {
        pos: place(down, x, y),
        rows: listed_rows,
        triples: listed_triples,
        planned_max,
        work,
    };
    let c = cutting::piece::cut_piece(s, t, vs, lens, b, u, w, triples, rows, from, m, closed);
    put_cut(c, counts, floats)
}
