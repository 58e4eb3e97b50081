// The hits of a rim around any point.
ghost use Rattle.std.specs.Prelude.{◌≡◌, true, cond, ◌+◌, ◌*◌, ◌≤◌, ◌<◌, min, length};
ghost use Rattle.std.specs.Float.Ieee.{le};
ghost use Rattle.loops.specs.Loop.{loop};
ghost use Rattle.raster.specs.Grid.{Sides, Over, stock_at};
ghost use Rattle.raster.specs.Contact.{direction_at, rim_at, hit_at, hits_of, Rim};
ghost use Rattle.rims.specs.Boxes.{Boxed, Around, BlockOn};
ghost use Rattle.rims.specs.Tiles.{tiles_of, Tiled, BareBlock};

use super::hits::{is_hit, is_roomy};
use super::tiles::tiles_of;
use geom::vec2::Vec2;
use raster::grid::{Grid, cell_of};

// Cell a, or the next one where q is not before x, its first number.
fn next_from(a: usize, x: f64, q: f64) -> usize
    requires { a < 8192 }
    ensures { result ≡ cond (le x q) (a + 1) a }
{
    if q >= x { a + 1 } else { a }
}

// Sample k around c.
fn sample_hit(
    g: Grid,
    map: &[u8],
    c: Vec2,
    r: f64,
    w: &[f64],
    n: usize,
    at: usize,
    i: usize,
    j: usize,
    k: usize,
) -> bool
    requires over { Over g (length map.now) }
    requires around { Around g c r w.now n at i j }
    requires k_lt_n { k < n }
    ensures { result ≡ stock_at g map.now (rim_at c r (direction_at n k)) }
{
    let e = f64::to_bits(w[at + 1 + k]) as usize;
    if e == 0 {
        return is_hit(g, map, c, r, w, n, k);
    }
    let a = i + (e - 1) % 4096;
    let b = j + (e - 1) / 4096;
    let x = next_from(a, w[8194 + a], c.x + w[2 * k] * r - g.origin.x);
    let y = next_from(b, w[8194 + b], c.y + w[2 * k + 1] * r - g.origin.y);
    let nx = g.nx;
    map[y * nx + x] == 1
}

// The hits of block b around c.
fn block_hits(
    g: Grid,
    map: &[u8],
    c: Vec2,
    r: f64,
    w: &[f64],
    n: usize,
    at: usize,
    i: usize,
    j: usize,
    b: usize,
) -> usize
    requires over { Over g (length map.now) }
    requires around { Around g c r w.now n at i j }
    requires b_bound { 8 * b < n }
    ensures { result ≡ loop (hit_at g map.now c r n) (8 * b) (min (8 * b + 8) n) 0 }
{
    let mut h = 0;
    for k in 8 * b..(8 * b + 8).min(n) {
        if sample_hit(g, map, c, r, w, n, at, i, j, k) {
            h += 1;
        }
    }
    h
}

// Whether a tile tells that no sample of block b is over stock.
fn is_bare(g: Grid, tiles: &[u8], w: &[f64], at: usize, i: usize, j: usize, b: usize) -> bool
    requires sides { Sides g }
    requires nx_in_bounds { (tiles_of g.ny * tiles_of g.nx ≤ length tiles.now) × (at ≤ 14848) × (17152 ≤ length w.now) }
    requires block_on { BlockOn g w.now at i j b }
    ensures { result ≡ true → BareBlock g tiles.now w.now at i j b }
{
    if b < 255 {
        let x = f64::to_bits(w[at + 2049 + b]) as usize;
        if 0 < x {
            let p = i + (x - 1) % 4096;
            let q = j + (x - 1) / 4096;
            return tiles[q / 8 * tiles_of(g.nx) + p / 8] == 0;
        }
    }
    false
}

// The hits around c, with the blocks passed over that have none.
fn box_hits(
    g: Grid,
    map: &[u8],
    tiles: &[u8],
    c: Vec2,
    r: f64,
    w: &[f64],
    n: usize,
    at: usize,
    i: usize,
    j: usize,
) -> usize
    requires over { Over g (length map.now) }
    requires tiled { Tiled g map.now tiles.now }
    requires around { Around g c r w.now n at i j }
    ensures { result ≡ hits_of g map.now c r n }
{
    let mut h = 0;
    for b in 0..(n + 7) / 8 {
        if !is_bare(g, tiles, w, at, i, j, b) {
            h += block_hits(g, map, c, r, w, n, at, i, j, b);
        }
    }
    h
}

// The hits of n samples of the rim of radius r around c, by the table at `at`.
pub fn rim_hits(
    g: Grid,
    map: &[u8],
    tiles: &[u8],
    c: Vec2,
    r: f64,
    w: &[f64],
    n: usize,
    at: usize,
) -> usize
    requires over { Over g (length map.now) }
    requires tiled { Tiled g map.now tiles.now }
    requires rim { Rim n w.now }
    requires n_bound { (n ≤ 2048) × (at ≤ 14848) }
    requires boxed { Boxed g r n at w.now }
    ensures { result ≡ hits_of g map.now c r n }
{
    if 17152 <= w.len() {
        let t = f64::to_bits(w[at]) as usize;
        if 0 < t {
            let s = t - 1;
            if let Some((i, j)) = cell_of(g, c) {
                if is_roomy(g, s, i, j) {
                    return box_hits(g, map, tiles, c, r, w, n, at, i - s, j - s);
                }
            }
        }
    }
    raster::contact::hits(g, map, c, r, w, n)
}
