// The cells of a window, told by two bounds.
ghost use Rattle.std.specs.Prelude.{◌≡◌, true, false, ◌+◌, ◌-◌, ◌*◌, ◌≤◌, ◌<◌, length, get_or, IfSome};
ghost use Rattle.distance.specs.Wrote.{Wrote};
ghost use Rattle.dilation.specs.Window.{most, Takes, On, Shaded};
ghost use Rattle.dilation.specs.Parts.{width_at, Wide, Bounded, RowTold, word_of};

use super::columns::{down, up_row};
use super::cover::cover_within;
use distance::FAR;
use distance::columns::NONE;
use distance::limits::Limit;

// The rows from lo on, before hi, and of these the columns from left on, before right.
#[derive(Clone, Copy)]
pub struct Window {
    pub lo: usize,
    pub hi: usize,
    pub left: usize,
    pub right: usize,
}

// Bounds of squares: a cell is told to be nearer to a mark than both, than the farther one, or than none.
#[derive(Clone, Copy)]
pub struct Bounds {
    pub near: u32,
    pub far: u32,
}

// The greatest bound that is taken: a width is 8192 at most.
const MOST: u32 = 67108864;

// The limit as a bound, where it is told and taken.
pub fn bound(l: Limit) -> Option<u32>
    ensures { IfSome result (Takes l) }
{
    l.below.filter(|&n| n <= MOST)
}

// What stands for a cell's square: below both bounds, between them, beyond the farther one.
fn word(deep: u8, far: u8, e: u32) -> u32
    ensures { result ≡ word_of deep far e }
{
    if far == 1 {
        if deep == 1 {
            return 0;
        }
        return e;
    }
    FAR
}

fn write_row(deep: &[u8], far: &[u8], e: u32, base: usize, n: usize, work: &mut [u32])
    requires n_in_bounds { (n ≤ length deep.now) × (n ≤ length far.now) }
    requires n_in_bounds_2 { base + n ≤ length work.old }
    ensures { Wrote (λ k. word_of (get_or deep.now k 0) (get_or far.now k 0) e) base 0 n work.old work.new }
{
    // By number: nothing is known of what a zip with `iter_mut` wrote.
    for k in 0..n {
        work[base + k] = word(deep[k], far[k], e);
    }
}

// Writes the words of a row of n cells from base on, by the rows to a mark and the widths of both bounds.
fn shade_row(
    dist: &[u32],
    deep: &[u32],
    far: &[u32],
    b: Bounds,
    base: usize,
    n: usize,
    work: &mut [u32],
)
    requires wide { Wide n dist.now deep.now }
    requires wide_2 { Wide n dist.now far.now }
    requires n_in_bounds { (base + n ≤ length work.old) × Bounded b.near deep.now × Bounded b.far far.now }
    ensures { RowTold (width_at dist.now deep.now) (width_at dist.now far.now) n b.near base work.old work.new }
{
    let mut below = [0u8; 4096];
    let mut within = [0u8; 4096];
    cover_within(b.near, dist, deep, n, &mut below);
    cover_within(b.far, dist, far, n, &mut within);
    write_row(&below, &within, b.near, base, n, work);
}

// The same, if the row is told.
fn tell_row(
    dist: &[u32],
    deep: &[u32],
    far: &[u32],
    b: Bounds,
    base: usize,
    n: usize,
    work: &mut [u32],
    told: bool,
)
    requires wide { Wide n dist.now deep.now }
    requires wide_2 { Wide n dist.now far.now }
    requires n_in_bounds { (base + n ≤ length work.old) × Bounded b.near deep.now × Bounded b.far far.now }
    ensures row_told { told ≡ true → RowTold (width_at dist.now deep.now) (width_at dist.now far.now) n b.near base work.old work.new }
    ensures work_unchanged { told ≡ false → work.new ≡ work.old }
{
    if told {
        shade_row(dist, deep, far, b, base, n, work);
    }
}

// By the widths of both bounds.
fn shade_rows(
    marks: &[u8],
    nx: usize,
    w: Window,
    step: usize,
    phase: usize,
    b: Bounds,
    deep: &[u32],
    far: &[u32],
    work: &mut [u32],
)
    requires on { On nx w }
    requires nx_in_bounds { (w.hi * nx ≤ length marks.now) × (w.hi * nx ≤ length work.old) }
    requires step_nonzero { 0 < step }
    requires bounded { Bounded b.near deep.now × Bounded b.far far.now }
    ensures { Shaded marks.now nx w step phase b.near b.far work.old work.new }
{
    down(marks, nx, w, work);
    let mut dist = [NONE; 4096];
    let n = w.right - w.left;
    for j in (w.lo..w.hi).rev() {
        let base = j * nx + w.left;
        up_row(work, base, n, &mut dist);
        let told = (j % step == phase) | (j + 1 == w.hi);
        tell_row(&dist, deep, far, b, base, n, work, told);
    }
}

// Tells of the window's cells, in each step-th row from `phase` on and in the last, whether a mark of the window is
// nearer than the bounds: the words of its other cells may hold anything.
pub fn shade(
    marks: &[u8],
    nx: usize,
    w: Window,
    step: usize,
    phase: usize,
    b: Bounds,
    work: &mut [u32],
)
    requires on { On nx w }
    requires nx_in_bounds { (w.hi * nx ≤ length marks.now) × (w.hi * nx ≤ length work.old) }
    requires step_nonzero { 0 < step }
    requires near_le_most { (b.near ≤ most) × (b.far ≤ most) }
    ensures { Shaded marks.now nx w step phase b.near b.far work.old work.new }
{
    let mut deep = [0u32; 4097];
    let mut far = [0u32; 4097];
    super::widths::fill(b.near, &mut deep);
    super::widths::fill(b.far, &mut far);
    shade_rows(marks, nx, w, step, phase, b, &deep, &far, work);
}
