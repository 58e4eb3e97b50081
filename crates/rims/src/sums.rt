// The hits of the rims around 32 cells side by side: they lie alike around each centre, so that of every sample a row of
// cells is added up at once.
ghost use Rattle.std.specs.Prelude.{◌≡◌, true, ◌+◌, ◌≤◌, ◌<◌, length, replicate};
ghost use Rattle.raster.specs.Grid.{Over};
ghost use Rattle.rims.specs.Offsets.{reach_of, Roomy, entry_at, Rims};
ghost use Rattle.rims.specs.Sums.{Added, Countable, Summed, HitsAlong};

use super::hits::is_roomy;
use super::offsets::reach_of;
use raster::grid::Grid;

// Adds 1 to the count of each of the 32 cells from number a on that is stock; by index, as in `tiles::gather`. No turn stops it, so that many go at once.
fn add_cells(map: &[u8], a: usize, counts: &mut [u16])
    requires a_in_bounds { a + 32 ≤ length map.now }
    requires countable { Countable counts.old }
    ensures { Added map.now a 32 counts.old counts.new }
{
    for c in 0..32usize {
        let x = counts[c];
        counts[c] = if map[a + c] == 1 { x + 1 } else { x };
    }
}

// Adds the cells that sample k lies in around the cells from (i, j) on, which have room.
fn add_sample(
    g: Grid,
    map: &[u8],
    r: f64,
    w: &[f64],
    n: usize,
    s: usize,
    i: usize,
    j: usize,
    k: usize,
    counts: &mut [u16],
)
    requires over { Over g (length map.now) }
    requires rims { Rims g r n w.now }
    requires s_value { s ≡ reach_of g r }
    requires roomy { Roomy g s i j × Roomy g s (i + 31) j }
    requires k_lt_n { (k < n) × (0 < entry_at w.now k) }
    requires summed { Summed g map.now r n i j k counts.old }
    ensures { Summed g map.now r n i j (k + 1) counts.new }
{
    let e = f64::to_bits(w[4096 + k]) as usize;
    let nx = g.nx;
    let base = (j - s) * nx + (i - s);
    add_cells(map, base + (e - 1), counts);
}

// Sums up n samples.
fn add_samples(
    g: Grid,
    map: &[u8],
    r: f64,
    w: &[f64],
    n: usize,
    s: usize,
    i: usize,
    j: usize,
    counts: &mut [u16],
)
    requires over { Over g (length map.now) }
    requires rims { Rims g r n w.now }
    requires s_value { s ≡ reach_of g r }
    requires roomy { Roomy g s i j × Roomy g s (i + 31) j }
    requires nonzero { 0 < entry_at w.now 0 }
    requires counts_value { counts.old ≡ replicate 32 0 }
    ensures { (length counts.new ≡ 32) × HitsAlong g map.now r n i j counts.new }
{
    for k in 0..n {
        add_sample(g, map, r, w, n, s, i, j, k, counts);
    }
}

// Where to begin, i or before it, so that 32 cells have room on their right: cells near the border are counted with those
// before them.
pub fn start_of(g: Grid, r: f64, i: usize) -> usize
    requires { g.nx ≤ 4096 }
    ensures { result ≤ i }
{
    let s = reach_of(g, r) + 32;
    if s <= g.nx {
        return i.min(g.nx - s);
    }
    i
}

// The hits of n samples around each of the 32 cells from (i, j) on, where the table serves and all of them have room;
// whether it is so.
pub fn hits_along(
    g: Grid,
    map: &[u8],
    r: f64,
    w: &[f64],
    n: usize,
    i: usize,
    j: usize,
    counts: &mut [u16],
) -> bool
    requires over { Over g (length map.now) }
    requires rims { Rims g r n w.now }
    requires n_nonzero { 0 < n }
    requires counts_value { counts.old ≡ replicate 32 0 }
    ensures { (length counts.new ≡ 32) × (result ≡ true → HitsAlong g map.now r n i j counts.new) }
{
    if f64::to_bits(w[4096]) != 0 {
        let s = reach_of(g, r);
        if is_roomy(g, s, i, j) {
            if is_roomy(g, s, i + 31, j) {
                add_samples(g, map, r, w, n, s, i, j, counts);
                return true;
            }
        }
    }
    false
}
