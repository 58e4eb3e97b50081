// The chunk list: rows of three u32 (kind, first triple, count) and triples of three f64, both lent.
ghost use Rattle.std.specs.Prelude.{◌≡◌, ◌+◌, ◌*◌, ◌≤◌, length};
ghost use Rattle.events.specs.Lent.{set_row, set_triple, shift_up};
ghost use Rattle.events.specs.Read.{number_of, spot_at, value_at, read_one, read_at};

use geom::vec2::Vec2;

// The kind of a row, which is a number in the slice.
#[derive(Clone, Copy, PartialEq, Eq, Debug)]
pub enum Kind {
    Helix = 1,
    Plunge = 2,
    Link = 3,
    Cut = 4,
}

impl From<Kind> for u32 {
    ghost from_gives = { λ k n. n ≡ number_of k };

    fn from(k: Kind) -> u32 {
        k as u32
    }
}

// A row as it is read: the floats of its kind. A cut has many, and carries its first triple's number
// and their count.
#[derive(Clone, Copy)]
pub enum Read {
    Helix(Vec2, f64),
    Plunge(Vec2),
    Link(Vec2),
    Cut(u32, u32),
}

// Row n becomes (kind, first, count).
pub fn put_row(rows: &mut [u32], n: usize, kind: Kind, first: u32, count: u32)
    requires { n * 3 + 3 ≤ length rows.old }
    ensures { rows.new ≡ set_row n (record { kind = number_of kind; first = first; count = count }) rows.old }
{
    let at = n * 3;
    rows[at] = kind.into();
    rows[at + 1] = first;
    rows[at + 2] = count;
}

// Triple n becomes (x, y, value).
pub fn put_triple(triples: &mut [f64], n: usize, p: Vec2, value: f64)
    requires { n * 3 + 3 ≤ length triples.old }
    ensures { triples.new ≡ set_triple n (record { x = p.x; y = p.y; value = value }) triples.old }
{
    let at = n * 3;
    triples[at] = p.x;
    triples[at + 1] = p.y;
    triples[at + 2] = value;
}

// The n numbers from low on move up by d, the last one first.
pub fn shift_up(triples: &mut [f64], low: usize, n: usize, d: usize)
    requires { low + n + d ≤ length triples.old }
    ensures { triples.new ≡ shift_up low n d triples.old }
{
    for i in 0..n {
        let k = low + n - 1 - i;
        triples[k + d] = triples[k];
    }
}

// The point of triple n.
pub fn spot(triples: &[f64], n: usize) -> Vec2
    requires { n * 3 + 3 ≤ length triples.now }
    ensures { result ≡ spot_at triples.now n }
{
    let at = n * 3;
    Vec2 {
        x: triples[at],
        y: triples[at + 1],
    }
}

// Its third number.
pub fn value(triples: &[f64], n: usize) -> f64
    requires { n * 3 + 3 ≤ length triples.now }
    ensures { result ≡ value_at triples.now n }
{
    triples[n * 3 + 2]
}

// A row of one triple, if its kind is one that has one.
fn read_one(triples: &[f64], kind: u32, n: usize) -> Option<Read>
    requires { n * 3 + 3 ≤ length triples.now }
    ensures { result ≡ read_one triples.now kind n }
{
    if kind == 1 {
        return Some(Read::Helix(spot(triples, n), value(triples, n)));
    }
    if kind == 2 {
        return Some(Read::Plunge(spot(triples, n)));
    }
    if kind == 3 {
        return Some(Read::Link(spot(triples, n)));
    }
    None
}

// Row k; none where its kind is none, or its triples do not lie in the slice, or a row of one triple
// has another count.
pub fn read_row(rows: &[u32], triples: &[f64], k: usize) -> Option<Read>
    requires { k * 3 + 3 ≤ length rows.now }
    ensures { result ≡ read_at rows.now triples.now k }
{
    let at = k * 3;
    let kind = rows[at];
    let first = rows[at + 1];
    let count = rows[at + 2];
    let n = first as usize;
    if triples.len() / 3 < n + count as usize {
        return None;
    }
    if kind == 4 {
        return Some(Read::Cut(first, count));
    }
    if count == 1 {
        return read_one(triples, kind, n);
    }
    None
}
