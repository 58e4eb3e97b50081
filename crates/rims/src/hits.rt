// The hits of a rim around the centre of a cell.
ghost use Rattle.std.specs.Prelude.{◌≡◌, true, ◌+◌, ◌≤◌, ◌<◌, length};
ghost use Rattle.raster.specs.Grid.{Over, center_of, stock_at};
ghost use Rattle.raster.specs.Contact.{direction_at, rim_at, hits_of, Rim};
ghost use Rattle.rims.specs.Offsets.{reach_of, Roomy, entry_at, Rims};

use super::offsets::reach_of;
use geom::vec2::Vec2;
use raster::grid::Grid;

// Whether cell (i, j) has s cells on each side.
pub fn is_roomy(g: Grid, s: usize, i: usize, j: usize) -> bool
    requires { (g.nx ≤ 4096) × (g.ny ≤ 4096) }
    ensures { result ≡ true → Roomy g s i j }
{
    if s <= i {
        if s <= j {
            if i < g.nx {
                if j < g.ny {
                    return (s < g.nx - i) & (s < g.ny - j);
                }
            }
        }
    }
    false
}

// Sample k of n by its definition.
pub fn is_hit(g: Grid, map: &[u8], c: Vec2, r: f64, rim: &[f64], n: usize, k: usize) -> bool
    requires over { Over g (length map.now) }
    requires rim { Rim n rim.now }
    requires k_lt_n { k < n }
    ensures { result ≡ stock_at g map.now (rim_at c r (direction_at n k)) }
{
    let u = Vec2 {
        x: rim[2 * k],
        y: rim[2 * k + 1],
    };
    raster::grid::at(g, map, c.add(u.scale(r)))
}

// Sample k around the centre of cell (i, j), which has room.
fn sample_hit(
    g: Grid,
    map: &[u8],
    r: f64,
    w: &[f64],
    n: usize,
    s: usize,
    i: usize,
    j: usize,
    k: usize,
) -> bool
    requires over { Over g (length map.now) }
    requires rims { Rims g r n w.now }
    requires s_value { s ≡ reach_of g r }
    requires roomy { Roomy g s i j }
    requires k_lt_n { (k < n) × (0 < entry_at w.now k) }
    ensures { result ≡ stock_at g map.now (rim_at (center_of g i j) r (direction_at n k)) }
{
    let e = f64::to_bits(w[4096 + k]) as usize;
    let nx = g.nx;
    let base = (j - s) * nx + (i - s);
    map[base + (e - 1)] == 1
}

// The hits around a cell with room.
fn roomy_hits(
    g: Grid,
    map: &[u8],
    r: f64,
    w: &[f64],
    n: usize,
    s: usize,
    i: usize,
    j: usize,
) -> usize
    requires over { Over g (length map.now) }
    requires rims { Rims g r n w.now }
    requires s_value { s ≡ reach_of g r }
    requires roomy { Roomy g s i j }
    requires nonzero { 0 < entry_at w.now 0 }
    ensures { result ≡ hits_of g map.now (center_of g i j) r n }
{
    let mut h = 0;
    for k in 0..n {
        if sample_hit(g, map, r, w, n, s, i, j, k) {
            h += 1;
        }
    }
    h
}

// The hits of n samples of the rim of radius r around the centre of cell (i, j).
pub fn centre_hits(g: Grid, map: &[u8], r: f64, w: &[f64], n: usize, i: usize, j: usize) -> usize
    requires over { Over g (length map.now) }
    requires rims { Rims g r n w.now }
    requires n_nonzero { 0 < n }
    ensures { result ≡ hits_of g map.now (center_of g i j) r n }
{
    if f64::to_bits(w[4096]) != 0 {
        let s = reach_of(g, r);
        if is_roomy(g, s, i, j) {
            return roomy_hits(g, map, r, w, n, s, i, j);
        }
    }
    raster::contact::hits(g, map, raster::grid::center(g, i, j), r, w, n)
}
