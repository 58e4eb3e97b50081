// Chunks listed in the lent rows and triples: the links of a way or a plunge, then the pass whose triples
// stand behind the listed ones.
ghost use Rattle.std.specs.Prelude.{◌≡◌, ◌++◌, ◌∷◌, [], map, ◌+◌, ◌*◌, ◌≤◌, length, replicate};
ghost use Rattle.geom.specs.Points.{points};
ghost use Rattle.links.specs.Link.{way_by};
ghost use Rattle.events.specs.Chunk.{plunge, link, cut};
ghost use Rattle.events.specs.Lent.{all_triples, rows_from, gap_triples, put_all, put_rows};
ghost use Rattle.events.specs.Read.{points_from};
ghost use Rattle.cutting.specs.Way.{way_chunks, moves_of};
ghost use Rattle.cutting.specs.Listing.{number_of, room_of, greatest_of, Countable};

use events::list::{Kind, put_row, put_triple, shift_up, value};
use geom::region::vertex;
use geom::vec2::Vec2;
use links::link::Route;

// What is full where a chunk does not fit: document 01's refusals 16 and 17.
#[derive(Clone, Copy, PartialEq, Eq, Debug)]
pub enum Full {
    Triples = 16,
    Rows = 17,
}

// Its number.
impl From<Full> for u32 {
    ghost from_gives = { λ f n. n ≡ number_of f };

    fn from(f: Full) -> u32 {
        f as u32
    }
}

// Whether `moves` chunks of one triple and then a cut of n fit, with so many triples and rows free, or what is full at
// the first that does not.
pub fn room(triples: usize, rows: usize, moves: usize, n: usize) -> Result<(), Full>
    ensures { result ≡ room_of triples rows (replicate moves 1 ++ (n ∷ [])) }
{
    if triples < moves {
        if rows < triples {
            return Err(Full::Rows);
        }
        return Err(Full::Triples);
    }
    if rows < moves {
        return Err(Full::Rows);
    }
    if triples - moves < n {
        return Err(Full::Triples);
    }
    if rows == moves {
        return Err(Full::Rows);
    }
    Ok(())
}

// The greatest contact of n triples from number `first` on, or `so` where that is greater.
pub fn greatest(triples: &[f64], first: usize, n: usize, so: f64) -> f64
    requires { (first + n) * 3 ≤ length triples.now }
    ensures { result ≡ greatest_of (points_from triples.now first n) so }
{
    let mut m = so;
    for k in 0..n {
        m = numbers::order::max(m, value(triples, first + k));
    }
    m
}

// A link to each of n points: triples from number `first` on, rows from number `row` on.
fn put_links(
    triples: &mut [f64],
    rows: &mut [u32],
    path: &[f64],
    n: usize,
    first: usize,
    row: usize,
)
    requires n_in_bounds { 2 * n ≤ length path.now }
    requires n_in_bounds_2 { (first + n) * 3 ≤ length triples.old }
    requires n_in_bounds_3 { (row + n) * 3 ≤ length rows.old }
    requires countable { Countable rows.old triples.old }
    ensures triples_after { triples.new ≡ put_all first (all_triples (map link (points 0 n path.now))) triples.old }
    ensures rows_after { rows.new ≡ put_rows row (rows_from first (map link (points 0 n path.now))) rows.old }
{
    for k in 0..n {
        let p = vertex(path, k);
        let at = first + k;
        put_triple(triples, at, p, 0.0);
        put_row(rows, row + k, Kind::Link, at as u32, 1);
    }
}

fn put_plunge(triples: &mut [f64], rows: &mut [u32], p: Vec2, first: usize, row: usize)
    requires first_in_bounds { (first + 1) * 3 ≤ length triples.old }
    requires row_in_bounds { (row + 1) * 3 ≤ length rows.old }
    requires countable { Countable rows.old triples.old }
    ensures triples_after { triples.new ≡ put_all first (all_triples (plunge p ∷ [])) triples.old }
    ensures rows_after { rows.new ≡ put_rows row (rows_from first (plunge p ∷ [])) rows.old }
{
    put_triple(triples, first, p, 0.0);
    put_row(rows, row, Kind::Plunge, first as u32, 1);
}

// How many chunks a way has: a link to each of its points, or a plunge.
pub fn moves_of(r: Route) -> usize
    ensures { result ≡ moves_of r }
{
    match r.points {
        Some(count) => count,
        None => 1,
    }
}

// The way's chunks, its points being those of `path`.
fn put_way(
    triples: &mut [f64],
    rows: &mut [u32],
    path: &[f64],
    route: Route,
    lead: Vec2,
    first: usize,
    row: usize,
)
    requires route_in_bounds { 2 * moves_of route ≤ length path.now }
    requires route_in_bounds_2 { (first + moves_of route) * 3 ≤ length triples.old }
    requires route_in_bounds_3 { (row + moves_of route) * 3 ≤ length rows.old }
    requires countable { Countable rows.old triples.old }
    ensures triples_after { triples.new ≡ put_all first (all_triples (way_chunks (way_by route path.now) lead)) triples.old }
    ensures rows_after { rows.new ≡ put_rows row (rows_from first (way_chunks (way_by route path.now) lead)) rows.old }
{
    match route.points {
        Some(count) => put_links(triples, rows, path, count, first, row),
        None => put_plunge(triples, rows, lead, first, row),
    }
}

// Lists the way and then the cut whose n triples stand at `first`: they move up behind the way's.
pub fn list_pass(
    triples: &mut [f64],
    rows: &mut [u32],
    path: &[f64],
    route: Route,
    lead: Vec2,
    first: usize,
    row: usize,
    n: usize,
)
    requires route_in_bounds { 2 * moves_of route ≤ length path.now }
    requires n_in_bounds { (first + moves_of route + n) * 3 ≤ length triples.old }
    requires route_in_bounds_2 { (row + moves_of route + 1) * 3 ≤ length rows.old }
    requires countable { Countable rows.old triples.old }
    ensures triples_after { triples.new ≡ gap_triples first n (all_triples (way_chunks (way_by route path.now) lead)) triples.old }
    ensures rows_after { rows.new ≡ put_rows row (rows_from first (way_chunks (way_by route path.now) lead ++ (cut (points_from triples.old first n) ∷ []))) rows.old }
{
    let moves = moves_of(route);
    shift_up(triples, first * 3, n * 3, moves * 3);
    put_way(triples, rows, path, route, lead, first, row);
    put_row(
        rows,
        row + moves,
        Kind::Cut,
        (first + moves) as u32,
        n as u32,
    );
}
