// Whether a pass is worth cutting: some stock for each cell of its length, and a few cells at least.
ghost use Rattle.std.specs.Prelude.{◌≡◌, ◌+◌, ◌*◌, ◌≤◌, length};
ghost use Rattle.passes.specs.Guide.{path_length};
ghost use Rattle.passes.specs.Worth.{wanted_of, spots_from, worth_of};

use events::list::spot;

// The length of a pass of n triples from number `first` on.
fn cut_length(triples: &[f64], first: usize, n: usize) -> f64
    requires { (first + n) * 3 ≤ length triples.now }
    ensures { result ≡ path_length (spots_from triples.now first n) }
{
    let mut t = 0.0;
    for k in 1..n {
        let a = spot(triples, first + k - 1);
        t = t + a.distance(spot(triples, first + k));
    }
    t
}

// How many cells a pass of such a length is to remove.
pub fn wanted(long: f64, cell: f64) -> usize
    ensures { result ≡ wanted_of long cell }
{
    let n = numbers::cast::sat_u64(0.05 * long / cell) as usize;
    if n < 4 {
        return 4;
    }
    n
}

// Whether the pass of n triples from number `first` on, which removed so many cells, is worth it.
pub fn worth(cell: f64, triples: &[f64], first: usize, n: usize, removed: usize) -> bool
    requires { (first + n) * 3 ≤ length triples.now }
    ensures { result ≡ worth_of cell (spots_from triples.now first n) removed }
{
    let least = wanted(cut_length(triples, first, n), cell);
    if removed < least {
        return false;
    }
    2 <= n
}
