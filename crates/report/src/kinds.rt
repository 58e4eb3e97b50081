// The chunks of each kind.
ghost use Rattle.std.specs.Prelude.{◌≡◌, ◌*◌, ◌^◌, ◌≤◌, ◌<◌, length};
ghost use Rattle.report.specs.Kinds.{total, counting, kinds_of};

use events::list::{Read, read_row};

#[derive(Clone, Copy)]
pub struct Kinds {
    pub passes: usize,
    pub helices: usize,
    pub plunges: usize,
    pub links: usize,
}

// One chunk more; a row that is none counts for none.
fn add_kind(c: Option<Read>, t: Kinds) -> Kinds
    requires { total t < 2 ^ 63 }
    ensures { result ≡ counting c t }
{
    let Some(row) = c else {
        return t;
    };
    let mut r = t;
    match row {
        Read::Helix(_, _) => r.helices += 1,
        Read::Plunge(_) => r.plunges += 1,
        Read::Link(_) => r.links += 1,
        Read::Cut(_, _) => r.passes += 1,
    }
    r
}

// Counts the first n rows.
pub fn count_kinds(rows: &[u32], triples: &[f64], n: usize) -> Kinds
    requires { n * 3 ≤ length rows.now }
    ensures { result ≡ kinds_of rows.now triples.now n }
{
    let mut t = Kinds {
        passes: 0,
        helices: 0,
        plunges: 0,
        links: 0,
    };
    for k in 0..n {
        let c = read_row(rows, triples, k);
        t = add_kind(c, t);
    }
    t
}
