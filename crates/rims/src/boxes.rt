// The table of a radius: for each sample of the rim the two columns and the two rows that hold it, counted from the
// centre's cell. Tested at both edges of every column and row with room; all operations between a point and its column
// keep the order, so the edges speak for all between them. Behind them, for blocks of 8 samples, where their columns and
// rows begin, if they are few.
ghost use Rattle.std.specs.Prelude.{◌≡◌, true, ◌+◌, ◌-◌, ◌≤◌, ◌<◌, ◌^◌, length};
ghost use Rattle.raster.specs.Grid.{Sides};
ghost use Rattle.raster.specs.Contact.{Rim};
ghost use Rattle.spans.specs.Ends.{Tame};
ghost use Rattle.rims.specs.Boxes.{Apart, Started, EdgesIn, EdgesTo, Entry, EntriesTo, Numbers, Block, BlocksTo, Boxed};

use super::offsets::reach_of;
use super::thresholds::fill_thresholds;
use geom::vec2::Vec2;
use numbers::cast::{float_of, sat_u32};
use raster::grid::Grid;
use spans::edges::{below, beyond, is_tame};

// Whether the points of cell i, moved by v, lie in cell k or the next one of n.
fn is_near(o: f64, cell: f64, n: usize, v: f64, i: usize, k: usize) -> bool
    requires { k ≤ 8192 }
    ensures { result ≡ true → EdgesIn o cell n v i k }
{
    let low = float_of(k) <= (below(o, cell, i) + v - o) / cell;
    let high = (beyond(o, cell, i) + v - o) / cell < float_of(k + 2);
    let on = k + 1 < n;
    on & (low & high)
}

// Whether they do so for each cell with room, k being a cells after cell i - s.
fn are_near(o: f64, cell: f64, n: usize, s: usize, v: f64, a: usize) -> bool
    requires { (n ≤ 4096) × (a ≤ 4096) }
    ensures { result ≡ true → EdgesTo o cell n s v a (n - s) }
{
    for i in s..n.saturating_sub(s) {
        if !is_near(o, cell, n, v, i, i - s + a) {
            return false;
        }
    }
    true
}

// Where a point v away from the start of cell s lies, a guess that is tested.
fn guess(cell: f64, s: usize, v: f64) -> usize
    ensures { result < 4096 }
{
    let a = sat_u32(v / cell + float_of(s)) as usize;
    if a < 4096 { a } else { 0 }
}

// What the table holds of the direction u: 0 where its columns or rows are more than two.
fn entry_of(g: Grid, r: f64, s: usize, u: Vec2) -> u64
    requires sides { Sides g }
    requires tame { Tame g }
    requires s_nonzero { 0 < s }
    ensures { (result < 2 ^ 32) × Entry g r s u result }
{
    let v = u.scale(r);
    let o = g.origin;
    let cell = g.cell;
    let a = guess(cell, s, v.x);
    if are_near(o.x, cell, g.nx, s, v.x, a) {
        let c = guess(cell, s, v.y);
        if are_near(o.y, cell, g.ny, s, v.y, c) {
            return (c * 4096 + a + 1) as u64;
        }
    }
    0
}

// Writes the entries of n samples behind place `at`.
fn fill_entries(g: Grid, r: f64, n: usize, at: usize, s: usize, w: &mut [f64])
    requires sides { Sides g }
    requires tame { Tame g }
    requires rim { Rim n w.old }
    requires s_nonzero { (0 < s) × (n ≤ 2048) × (4096 ≤ at) × (at + 2049 ≤ length w.old) }
    ensures { Apart (at + 1) (at + 2049) w.old w.new × EntriesTo g r n at s n w.new }
{
    for k in 0..n {
        let u = Vec2 {
            x: w[2 * k],
            y: w[2 * k + 1],
        };
        w[at + 1 + k] = f64::from_bits(entry_of(g, r, s, u));
    }
}

// What the table holds of a block whose entries are es: 0 where one is 0, or where their columns or rows are more than 9.
fn block_of(es: &[f64]) -> u64
    requires { Numbers 0 (length es.now) es.now }
    ensures { (result < 2 ^ 32) × Block es.now 0 (length es.now) result }
{
    let mut a = 4096usize;
    let mut b = 0usize;
    let mut c = 4096usize;
    let mut d = 0usize;
    for e in es {
        let x = f64::to_bits(*e) as usize;
        if x == 0 {
            return 0;
        }
        let i = (x - 1) % 4096;
        let j = (x - 1) / 4096;
        a = a.min(i);
        b = b.max(i);
        c = c.min(j);
        d = d.max(j);
    }
    if (b < a + 8) & (d < c + 8) {
        return (c * 4096 + a + 1) as u64;
    }
    0
}

// Writes the blocks behind the entries of n samples.
fn fill_blocks(n: usize, at: usize, w: &mut [f64])
    requires n_bound { (n ≤ 2048) × (at + 2304 ≤ length w.old) }
    requires numbers { Numbers (at + 1) (at + 1 + n) w.old }
    ensures { Apart (at + 2049) (at + 2304) w.old w.new × BlocksTo n at 255 w.new }
{
    for b in 0..255usize {
        let k = at + 1 + (8 * b).min(n);
        let e = at + 1 + (8 * b + 8).min(n);
        w[at + 2049 + b] = f64::from_bits(block_of(&w[k..e]));
    }
}

// Works out the table of radius r.
pub fn fill_boxes(g: Grid, r: f64, n: usize, at: usize, w: &mut [f64])
    requires sides { Sides g }
    requires rim { Rim n w.old }
    requires n_bound { (n ≤ 2048) × (12544 ≤ at) × (at ≤ 14848) }
    requires started { Started g w.old }
    ensures { Apart at (at + 2304) w.old w.new × Boxed g r n at w.new }
{
    if w.len() < 17152 {
        return;
    }
    w[at] = 0.0;
    if f64::to_bits(w[8192]) != 0 {
        if is_tame(g) {
            let s = reach_of(g, r);
            fill_entries(g, r, n, at, s, w);
            fill_blocks(n, at, w);
            w[at] = f64::from_bits((s + 1) as u64);
        }
    }
}

// Works out the first numbers and the tables of two radii.
pub fn fill_all(g: Grid, r: f64, t: f64, n: usize, w: &mut [f64])
    requires sides { Sides g }
    requires rim { Rim n w.old }
    requires n_bound { n ≤ 2048 }
    ensures { Apart 8192 17152 w.old w.new × Boxed g r n 12544 w.new × Boxed g t n 14848 w.new }
{
    fill_thresholds(g, w);
    fill_boxes(g, r, n, 12544, w);
    fill_boxes(g, t, n, 14848, w);
}
