// Which places of a row others reach: each reaches as many places as its width, by its rows to a mark.
ghost use Rattle.std.specs.Prelude.{◌≡◌, ◌+◌, ◌≤◌, ◌<◌, length, get_or};
ghost use Rattle.dilation.specs.Parts.{width_at, Covered, CoveredLeft, Wide};

fn wide(x: u32) -> usize
    ensures { result ≡ x }
{
    x as usize
}

// How many places place k reaches.
fn width_at(dist: &[u32], widths: &[u32], k: usize) -> usize
    requires k_in_bounds { k < length dist.now }
    requires k_in_bounds_2 { get_or dist.now k 0 < length widths.now }
    ensures { result ≡ width_at dist.now widths.now k }
{
    let d = dist[k] as usize;
    wide(widths[d])
}

// From the left.
fn from_left(dist: &[u32], widths: &[u32], n: usize, flags: &mut [u8])
    requires wide { Wide n dist.now widths.now }
    requires n_in_bounds { n ≤ length flags.old }
    ensures { (length flags.new ≡ length flags.old) × CoveredLeft (width_at dist.now widths.now) n n flags.new }
{
    let mut reach = 0usize;
    for i in 0..n {
        reach = reach.max(i + width_at(dist, widths, i));
        flags[i] = if i < reach { 1 } else { 0 };
    }
}

// From the right, beside those from the left.
fn from_right(dist: &[u32], widths: &[u32], n: usize, flags: &mut [u8])
    requires wide { Wide n dist.now widths.now }
    requires n_in_bounds { n ≤ length flags.old }
    requires covered_left { CoveredLeft (width_at dist.now widths.now) n n flags.old }
    ensures { (length flags.new ≡ length flags.old) × Covered (width_at dist.now widths.now) n flags.new }
{
    let mut reach = 0usize;
    for t in 0..n {
        let i = n - 1 - t;
        reach = reach.max(t + width_at(dist, widths, i));
        if t < reach {
            flags[i] = 1;
        }
    }
}

fn cover(dist: &[u32], widths: &[u32], n: usize, flags: &mut [u8])
    requires wide { Wide n dist.now widths.now }
    requires n_in_bounds { n ≤ length flags.old }
    ensures { (length flags.new ≡ length flags.old) × Covered (width_at dist.now widths.now) n flags.new }
{
    from_left(dist, widths, n, flags);
    from_right(dist, widths, n, flags);
}

// By the widths of the bound e. Nothing is nearer than a bound of 0.
pub fn cover_within(e: u32, dist: &[u32], widths: &[u32], n: usize, flags: &mut [u8])
    requires wide { Wide n dist.now widths.now }
    requires n_in_bounds { n ≤ length flags.old }
    requires covered { e ≡ 0 → Covered (width_at dist.now widths.now) n flags.old }
    ensures { (length flags.new ≡ length flags.old) × Covered (width_at dist.now widths.now) n flags.new }
{
    if 0 < e {
        cover(dist, widths, n, flags);
    }
}
