// The engagement field of a round: at each allowed cell the angle of the tool's whole rim over stock.
ghost use Rattle.std.specs.Prelude.{◌≡◌, true, IfSome, ◌+◌, ◌*◌, ◌≤◌, ◌<◌, length, get_or, replicate};
ghost use Rattle.loops.specs.Cells.{number};
ghost use Rattle.loops.specs.Loop.{loop};
ghost use Rattle.raster.specs.Contact.{samples_of};
ghost use Rattle.rims.specs.Sums.{HitsAlong};
ghost use Rattle.field.specs.Bands.{window_row, window_rows};
ghost use Rattle.field.specs.Field.{sensed, field_cell};
ghost use Rattle.field.specs.Gauge.{KnownAt, Sensing};

use super::gauge::{Gauge, is_sampled, value_at, wanted};
use dilation::window::Window;
use raster::contact::samples_of;
use rims::sums::{hits_along, start_of};

// Works out cell (i, j) if it is wanted; how many cells were sampled, with it.
fn field_cell(
    g: Gauge,
    map: &[u8],
    allowed: &[u8],
    stock: &[u32],
    near: &[u32],
    rim: &[f64],
    known: Option<usize>,
    f: &mut [f32],
    j: usize,
    i: usize,
    sampled: usize,
) -> usize
    requires sensing { Sensing g.setup map.now allowed.now stock.now near.now rim.now (length f.old) }
    requires known_at { KnownAt g.setup map.now i j known }
    requires i_lt_nx { (i < g.setup.grid.nx) × (j < g.setup.grid.ny) × (sampled ≤ number g.setup.grid.nx i j) }
    ensures { sensed f.new result ≡ field_cell g.setup g.all map.now allowed.now stock.now near.now j i (sensed f.old sampled) }
{
    let nx = g.setup.grid.nx;
    let k = j * nx + i;
    if wanted(g, allowed, near, k) {
        let v = value_at(g, map, stock, rim, known, i, j);
        f[k] = v.v;
        if v.sampled {
            return sampled + 1;
        }
    }
    sampled
}

// Whether one of the cells of a run, looked at here and there, is likely to be sampled: then it is worth counting all.
fn is_dense(g: Gauge, allowed: &[u8], stock: &[u32], near: &[u32], first: usize, end: usize) -> bool
    requires end_in_bounds { (end ≤ length allowed.now) × (end ≤ length near.now) × (end ≤ length stock.now) }
    requires first_le_end { (first ≤ end) × (end ≤ 16777216) }
{
    for k in (first + 4..end).step_by(8) {
        if is_sampled(g, allowed, stock, near, k) {
            return true;
        }
    }
    false
}

// Counts the hits around the cells of row j from `from` on, where it is worth it for those from `first` on, before `end`;
// whether they are told then.
fn count_run(
    g: Gauge,
    map: &[u8],
    allowed: &[u8],
    stock: &[u32],
    near: &[u32],
    rim: &[f64],
    j: usize,
    first: usize,
    end: usize,
    from: usize,
    counts: &mut [u16],
) -> bool
    requires sensing { Sensing g.setup map.now allowed.now stock.now near.now rim.now (g.setup.grid.ny * g.setup.grid.nx) }
    requires j_lt_ny { (j < g.setup.grid.ny) × (first ≤ end) × (end ≤ g.setup.grid.nx) }
    requires counts_value { counts.old ≡ replicate 32 0 }
    ensures { (length counts.new ≡ 32) × (result ≡ true → HitsAlong g.setup.grid map.now g.setup.r (samples_of g.setup.samples) from j counts.new) }
{
    let s = g.setup;
    let row = j * s.grid.nx;
    if is_dense(g, allowed, stock, near, row + first, row + end) {
        let n = samples_of(s.samples);
        return hits_along(s.grid, map, s.r, rim, n, from, j, counts);
    }
    false
}

// The hits that are counted in place c, where they are told and it is one of the places.
fn known_at(counts: &[u16], told: bool, c: usize) -> Option<usize>
    requires { length counts.now ≡ 32 }
    ensures { IfSome result (λ hits. (told ≡ true) × (c < 32) × (hits ≡ get_or counts.now c 0)) }
{
    if told & (c < 32) {
        return Some(counts[c] as usize);
    }
    None
}

// Works out the cells of row j from `first` on, before `end`. Where `told`, the hits around the cells from `from` on are
// counted.
fn field_cells(
    g: Gauge,
    map: &[u8],
    allowed: &[u8],
    stock: &[u32],
    near: &[u32],
    rim: &[f64],
    counts: &[u16],
    from: usize,
    told: bool,
    f: &mut [f32],
    j: usize,
    first: usize,
    end: usize,
    sampled: usize,
) -> usize
    requires sensing { Sensing g.setup map.now allowed.now stock.now near.now rim.now (length f.old) }
    requires counts_len { (length counts.now ≡ 32) × (told ≡ true → HitsAlong g.setup.grid map.now g.setup.r (samples_of g.setup.samples) from j counts.now) }
    requires j_lt_ny { (j < g.setup.grid.ny) × (sampled ≤ number g.setup.grid.nx first j) }
    requires from_le_first { (from ≤ first) × (end ≤ g.setup.grid.nx) }
    ensures { sensed f.new result ≡ loop (field_cell g.setup g.all map.now allowed.now stock.now near.now j) first end (sensed f.old sampled) }
{
    let mut n = sampled;
    for i in first..end {
        let known = known_at(counts, told, i - from);
        n = field_cell(g, map, allowed, stock, near, rim, known, f, j, i, n);
    }
    n
}

// Works out the cells of row j from `first` on, before `end`: as many as are counted together, or fewer.
fn field_run(
    g: Gauge,
    map: &[u8],
    allowed: &[u8],
    stock: &[u32],
    near: &[u32],
    rim: &[f64],
    f: &mut [f32],
    j: usize,
    first: usize,
    end: usize,
    sampled: usize,
) -> usize
    requires sensing { Sensing g.setup map.now allowed.now stock.now near.now rim.now (length f.old) }
    requires j_lt_ny { (j < g.setup.grid.ny) × (sampled ≤ number g.setup.grid.nx first j) }
    requires first_le_end { (first ≤ end) × (end ≤ g.setup.grid.nx) }
    ensures { sensed f.new result ≡ loop (field_cell g.setup g.all map.now allowed.now stock.now near.now j) first end (sensed f.old sampled) }
{
    let from = start_of(g.setup.grid, g.setup.r, first);
    let mut counts = [0u16; 32];
    let told = count_run(
        g,
        map,
        allowed,
        stock,
        near,
        rim,
        j,
        first,
        end,
        from,
        &mut counts,
    );
    field_cells(
        g, map, allowed, stock, near, rim, &counts, from, told, f, j, first, end, sampled,
    )
}

// Works out the window's cells of row j.
fn field_row(
    g: Gauge,
    w: Window,
    map: &[u8],
    allowed: &[u8],
    stock: &[u32],
    near: &[u32],
    rim: &[f64],
    f: &mut [f32],
    j: usize,
    sampled: usize,
) -> usize
    requires sensing { Sensing g.setup map.now allowed.now stock.now near.now rim.now (length f.old) }
    requires j_lt_ny { (j < g.setup.grid.ny) × (sampled ≤ j * g.setup.grid.nx) × (w.left ≤ g.setup.grid.nx) }
    ensures { sensed f.new result ≡ window_row g.setup g.all map.now allowed.now stock.now near.now w j (sensed f.old sampled) }
{
    let first = w.left.max(1);
    let end = w.right.min(g.setup.grid.nx - 1);
    let mut n = sampled;
    let mut i = first;
    // 32 cells at a time; the last are fewer.
    while i < end {
        let next = (i + 32).min(end);
        n = field_run(g, map, allowed, stock, near, rim, f, j, i, next, n);
        i = next;
    }
    n
}

// Works out the cells of a window; how many of them were sampled.
pub fn field_rows(
    g: Gauge,
    w: Window,
    map: &[u8],
    allowed: &[u8],
    stock: &[u32],
    near: &[u32],
    rim: &[f64],
    f: &mut [f32],
) -> usize
    requires sensing { Sensing g.setup map.now allowed.now stock.now near.now rim.now (length f.old) }
    requires left_le_nx { w.left ≤ g.setup.grid.nx }
    ensures { sensed f.new result ≡ window_rows g.setup g.all map.now allowed.now stock.now near.now w (sensed f.old 0) }
{
    let first = w.lo.max(1);
    let end = w.hi.min(g.setup.grid.ny - 1);
    let mut n = 0;
    for j in first..end {
        n = field_row(g, w, map, allowed, stock, near, rim, f, j, n);
    }
    n
}
