// The crescent from a point to the next cleared row by row, but for the rows that the table shows to have no stock.
ghost use Rattle.std.specs.Prelude.{◌≡◌, true, not, ◌+◌, ◌*◌, ◌/◌, ◌%◌, ◌≤◌, ◌<◌, length, get_or, T};
ghost use Rattle.std.specs.Float.{nan};
ghost use Rattle.std.specs.Float.Ieee.{is_nan};
ghost use Rattle.raster.specs.Grid.{Sides, Over};
ghost use Rattle.raster.specs.Disk.{disk_row};
ghost use Rattle.raster.specs.Sweep.{crescent_at};
ghost use Rattle.raster.specs.Log.{st, Ready, clear_cell, clear_after};
ghost use Rattle.spans.specs.Spans.{word, Placed, Spanning};
ghost use Rattle.spans.specs.Ends.{LiesAt, CoversAt, Idle, PlacedAt};

use super::runs::{Limits, is_bare};
use geom::vec2::Vec2;
use raster::disk::{Rows, rows_of};
use raster::grid::{Grid, cell_of};
use raster::log::{clear_disk_after_logged, clear_row};

// A point with its cell.
#[derive(Clone, Copy)]
pub struct Spot {
    pub p: Vec2,
    pub i: usize,
    pub j: usize,
}

// A point with its cell, where that has room on each side.
fn spot_of(g: Grid, s: usize, p: Vec2) -> Option<Spot>
    requires { Sides g }
    ensures { PlacedAt g s p result }
{
    let (i, j) = cell_of(g, p)?;
    if s <= i {
        if s <= j {
            if s < g.nx - i {
                if s < g.ny - j {
                    return Some(Spot { p, i, j });
                }
            }
        }
    }
    None
}

fn word_at(t: &[f64], k: usize) -> u64
    requires k_in_bounds { k < length t.now }
    requires t { T (not (is_nan (get_or t.now k nan))) }
    ensures { result ≡ word t.now k }
{
    f64::to_bits(t[k])
}

// A word's columns, counted from column i - s on.
fn limits(w: u64, s: usize, i: usize) -> Limits
    requires { (s ≤ i) × (i ≤ 4096) }
    ensures { (result.first + s ≡ i + w / 65536) × (result.last + s ≡ i + w % 65536) }
{
    Limits {
        first: i + (w / 65536) as usize - s,
        last: i + (w % 65536) as usize - s,
    }
}

// No column of row y in the disk lies outside of these.
fn outer(g: Grid, r: f64, t: &[f64], s: usize, at: Spot, y: usize) -> Limits
    requires sides { Sides g }
    requires spanning { Spanning g r t.now × (word t.now 0 ≡ s + 1) }
    requires placed { Placed g s at.p at.i at.j }
    requires y_lt_ny { y < g.ny }
    ensures { LiesAt result (disk_row g at.p r y) }
{
    let j = at.j;
    let k = y + s;
    if (k < j) | (j + 2 * s < k) {
        return Limits {
            first: 0,
            last: g.nx,
        };
    }
    let q = k - j;
    limits(word_at(t, 2 * q + 1), s, at.i)
}

// Each of these columns of row y lies in the disk.
fn inner(g: Grid, r: f64, t: &[f64], s: usize, at: Spot, y: usize) -> Limits
    requires sides { Sides g }
    requires spanning { Spanning g r t.now × (word t.now 0 ≡ s + 1) }
    requires placed { Placed g s at.p at.i at.j }
    requires y_lt_ny { y < g.ny }
    ensures { CoversAt result (disk_row g at.p r y) }
{
    let j = at.j;
    let k = y + s;
    if (k < j) | (j + 2 * s < k) {
        return Limits { first: 1, last: 0 };
    }
    let q = k - j;
    limits(word_at(t, 2 * q + 2), s, at.i)
}

// Whether row y is seen to change nothing.
fn is_idle(g: Grid, map: &[u8], from: Spot, at: Spot, r: f64, t: &[f64], s: usize, y: usize) -> bool
    requires over { Over g (length map.now) }
    requires spanning { Spanning g r t.now × (word t.now 0 ≡ s + 1) }
    requires placed { Placed g s from.p from.i from.j }
    requires placed_2 { Placed g s at.p at.i at.j }
    requires y_lt_ny { y < g.ny }
    ensures { result ≡ true → Idle g from.p at.p r y map.now }
{
    let o = outer(g, r, t, s, at, y);
    let n = inner(g, r, t, s, from, y);
    let nx = g.nx;
    is_bare(map, y * nx, nx, o, n)
}

fn pass_row(
    g: Grid,
    map: &mut [u8],
    from: Spot,
    at: Spot,
    r: f64,
    t: &[f64],
    s: usize,
    y: usize,
    log: &mut [u32],
    count: usize,
) -> usize
    requires over { Over g (length map.old) }
    requires ready { Ready (st map.old log.old count) }
    requires spanning { Spanning g r t.now × (word t.now 0 ≡ s + 1) }
    requires placed { Placed g s from.p from.i from.j }
    requires placed_2 { Placed g s at.p at.i at.j }
    requires y_lt_ny { y < g.ny }
    ensures { st map.new log.new result ≡ crescent_at clear_cell g from.p at.p r y (st map.old log.old count) }
{
    if is_idle(g, map, from, at, r, t, s, y) {
        return count;
    }
    clear_row(g, map, from.p, at.p, r, y, log, count)
}

fn clear_rows(
    g: Grid,
    map: &mut [u8],
    from: Spot,
    at: Spot,
    r: f64,
    t: &[f64],
    s: usize,
    log: &mut [u32],
    count: usize,
) -> usize
    requires over { Over g (length map.old) }
    requires ready { Ready (st map.old log.old count) }
    requires spanning { Spanning g r t.now × (word t.now 0 ≡ s + 1) }
    requires placed { Placed g s from.p from.i from.j }
    requires placed_2 { Placed g s at.p at.i at.j }
    ensures { st map.new log.new result ≡ clear_after g from.p at.p r (st map.old log.old count) }
{
    let Rows(first, last) = rows_of(g, at.p, r);
    let mut n = count;
    for y in first..last + 1 {
        n = pass_row(g, map, from, at, r, t, s, y, log, n);
    }
    n
}

// As `clear_disk_after_logged`, by a table for the grid and the radius.
pub fn clear_crescent(
    g: Grid,
    map: &mut [u8],
    prev: Vec2,
    c: Vec2,
    r: f64,
    t: &[f64],
    log: &mut [u32],
    count: usize,
) -> usize
    requires over { Over g (length map.old) }
    requires ready { Ready (st map.old log.old count) }
    requires spanning { Spanning g r t.now }
    ensures { st map.new log.new result ≡ clear_after g prev c r (st map.old log.old count) }
{
    let w = word_at(t, 0) as usize;
    if 0 < w {
        let s = w - 1;
        if let Some(from) = spot_of(g, s, prev) {
            if let Some(at) = spot_of(g, s, c) {
                return clear_rows(g, map, from, at, r, t, s, log, count);
            }
        }
    }
    clear_disk_after_logged(g, map, prev, c, r, log, count)
}
