// Question 13 of document 01, on the regions. Whether the answer is yes.
ghost use Rattle.std.specs.Prelude.{◌≡◌, ◌≤◌, length};
ghost use Rattle.entry.specs.Regions.{sum_of};
ghost use Rattle.entry.specs.Questions.{all_from, placed, all_placed, most_regions, counts_fit, vertices_fit, shapes_fit};

fn sum(l: &[u32]) -> usize
    requires { length l.now ≤ 4096 }
    ensures { result ≡ sum_of l.now }
{
    let mut n = 0;
    for x in l {
        n += *x as usize;
    }
    n
}

// Whether each number is from a to e.
fn all_from(a: u32, e: u32, l: &[u32]) -> bool
    ensures { result ≡ all_from a e l.now }
{
    for x in l {
        if (*x < a) | (e < *x) {
            return false;
        }
    }
    true
}

fn is_placed(x: f64) -> bool
    ensures { result ≡ placed x }
{
    numbers::order::is_finite(x) & (numbers::order::abs(x) <= 10000.0)
}

fn all_placed(vs: &[f64]) -> bool
    ensures { result ≡ all_placed vs.now }
{
    for x in vs {
        if !is_placed(*x) {
            return false;
        }
    }
    true
}

// The pocket, and 16 stock regions where there is a list of them.
fn most_regions(whole: bool) -> usize
    ensures { result ≡ most_regions whole }
{
    if whole {
        return 1;
    }
    17
}

// The numbers of regions and of their loops.
fn counts_fit(whole: bool, lens: &[u32], regions: &[u32]) -> bool
    ensures { result ≡ counts_fit whole lens.now regions.now }
{
    let n = regions.len();
    if (1 <= n) & (n <= most_regions(whole)) {
        if all_from(1, 65, regions) {
            return sum(regions) == lens.len();
        }
    }
    false
}

// Those of their vertices.
pub fn vertices_fit(vs: &[f64], lens: &[u32]) -> bool
    requires { length lens.now ≤ 4096 }
    ensures { result ≡ vertices_fit vs.now lens.now }
{
    if all_from(3, 4096, lens) {
        let n = sum(lens);
        if n <= 4096 {
            return 2 * n == vs.len();
        }
    }
    false
}

pub fn shapes_fit(whole: bool, vs: &[f64], lens: &[u32], regions: &[u32]) -> bool
    ensures { result ≡ shapes_fit whole vs.now lens.now regions.now }
{
    if counts_fit(whole, lens, regions) {
        if vertices_fit(vs, lens) {
            return all_placed(vs);
        }
    }
    false
}
