// The pieces of a round cut one after another, until all are or one is refused.
ghost use Rattle.std.specs.Prelude.{◌≡◌, length};
ghost use Rattle.loops.specs.Frame.{Only};
ghost use Rattle.setup.specs.Layout.{map_in, allowed_in, dirty_in, log_in, guide_from, path_end};
ghost use Rattle.setup.specs.Place.{cells_of};
ghost use Rattle.pieces.specs.Piece.{piece_of};
ghost use Rattle.links.specs.Path.{wall_in};
ghost use Rattle.cutting.specs.Piece.{Listed, Settled, Behind};
ghost use Rattle.workspace.specs.Standing.{abandoned_in, Standing, CellsKept};
ghost use Rattle.workspace.specs.Lies.{traced_in, pieces_in, Lying};
ghost use Rattle.rounds.specs.Round.{cuts_in, after_cut, cut_next_of, cut_pieces_of, cut_ring_of, Traced, Lists};

use super::rows::{read, take_nearest};
use cutting::listing::Full;
use cutting::piece::{Cut, State, cut_piece};
use pieces::row::Row;
use setup::{Setup, layout};

// The state after a piece, and whether a pass is kept by now, `any` saying whether one was before it.
fn after(c: Cut, any: bool) -> (State, bool)
    ensures { result ≡ after_cut any c }
{
    match c {
        Cut::Nothing(t) => (t, any),
        Cut::Kept(t) => (t, true),
    }
}

// Cuts the piece of the row p: the state after it, and whether a pass is kept by now.
fn cut_next(
    s: Setup,
    t: State,
    any: bool,
    vs: &[f64],
    lens: &[u32],
    b: &mut [u8],
    u: &mut [u32],
    w: &mut [f64],
    triples: &mut [f64],
    rows: &mut [u32],
    p: Row,
) -> Result<(State, bool), Full>
    requires standing { Standing s vs.now lens.now b.old u.old w.old }
    requires traced { Traced (cells_of s) p }
    requires listed { Listed rows.old triples.old t 0 }
    ensures result_after { cuts_in (cells_of s) b.new (log_in (cells_of s) u.new) rows.new triples.new result ≡ (cut_next_of s (wall_in s w.old) vs.now lens.now (allowed_in (cells_of s) b.old) (piece_of p (traced_in (cells_of s) w.old)) t any (map_in (cells_of s) b.old) (dirty_in (cells_of s) b.old) rows.old (log_in (cells_of s) u.old) triples.old).left }
    ensures settled { Settled (cells_of s) b.old b.new }
    ensures behind { Behind (cells_of s) u.old u.new }
    ensures only { Only (guide_from (cells_of s)) (path_end (cells_of s)) w.old w.new }
{
    let n = s.grid.ny * s.grid.nx;
    let from = layout::traced(n) + 2 * (p.first as usize);
    let m = p.points as usize;
    let c = cut_piece(s, t, vs, lens, b, u, w, triples, rows, from, m, p.closed)?;
    Ok(after(c, any))
}

// Cuts the m pieces of a round, the nearest to the tool first: the state after them, and whether a pass was kept.
pub fn cut_pieces(
    s: Setup,
    t: State,
    vs: &[f64],
    lens: &[u32],
    b: &mut [u8],
    u: &mut [u32],
    w: &mut [f64],
    triples: &mut [f64],
    rows: &mut [u32],
    m: usize,
) -> Result<(State, bool), Full>
    requires standing { Standing s vs.now lens.now b.old u.old w.old }
    requires lying { Lying (cells_of s) m u.old }
    requires listed { Listed rows.old triples.old t 0 }
    ensures result_after { cuts_in (cells_of s) b.new (log_in (cells_of s) u.new) rows.new triples.new result ≡ (cut_pieces_of s (wall_in s w.old) vs.now lens.now (allowed_in (cells_of s) b.old) (pieces_in (cells_of s) m u.old w.old) t (map_in (cells_of s) b.old) (dirty_in (cells_of s) b.old) rows.old (log_in (cells_of s) u.old) triples.old).left }
    ensures cells_kept { CellsKept (cells_of s) b.old b.new }
    ensures b_unchanged { abandoned_in (cells_of s) b.new ≡ abandoned_in (cells_of s) b.old }
    ensures u_len_unchanged { length u.new ≡ length u.old }
    ensures only { Only (guide_from (cells_of s)) (path_end (cells_of s)) w.old w.new }
    ensures lists { Lists rows.old rows.new triples.old triples.new result }
{
    let n = s.grid.ny * s.grid.nx;
    let mut at = t;
    let mut any = false;
    for i in 0..m {
        let pos = at.pos;
        let p = take_nearest(u, w, n, m - i, pos);
        (at, any) = cut_next(s, at, any, vs, lens, b, u, w, triples, rows, p)?;
    }
    Ok((at, any))
}

// Cuts the m pieces of the ring, in order, with the same answer.
pub fn cut_ring(
    s: Setup,
    t: State,
    vs: &[f64],
    lens: &[u32],
    b: &mut [u8],
    u: &mut [u32],
    w: &mut [f64],
    triples: &mut [f64],
    rows: &mut [u32],
    m: usize,
) -> Result<(State, bool), Full>
    requires standing { Standing s vs.now lens.now b.old u.old w.old }
    requires lying { Lying (cells_of s) m u.old }
    requires listed { Listed rows.old triples.old t 0 }
    ensures result_after { cuts_in (cells_of s) b.new (log_in (cells_of s) u.new) rows.new triples.new result ≡ (cut_ring_of s (wall_in s w.old) vs.now lens.now (allowed_in (cells_of s) b.old) (pieces_in (cells_of s) m u.old w.old) t (map_in (cells_of s) b.old) (dirty_in (cells_of s) b.old) rows.old (log_in (cells_of s) u.old) triples.old).left }
    ensures cells_kept { CellsKept (cells_of s) b.old b.new }
    ensures b_unchanged { abandoned_in (cells_of s) b.new ≡ abandoned_in (cells_of s) b.old }
    ensures u_len_unchanged { length u.new ≡ length u.old }
    ensures only { Only (guide_from (cells_of s)) (path_end (cells_of s)) w.old w.new }
    ensures lists { Lists rows.old rows.new triples.old triples.new result }
{
    let n = s.grid.ny * s.grid.nx;
    let mut at = t;
    let mut any = false;
    for i in 0..m {
        let p = read(u, n, i);
        (at, any) = cut_next(s, at, any, vs, lens, b, u, w, triples, rows, p)?;
    }
    Ok((at, any))
}
