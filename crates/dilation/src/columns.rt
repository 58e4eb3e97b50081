// The rows to the nearest mark of each column of a window.
ghost use Rattle.std.specs.Prelude.{◌≡◌, ◌+◌, ◌-◌, ◌*◌, ◌≤◌, length, get_or};
ghost use Rattle.distance.specs.Column.{from_above, from_below};
ghost use Rattle.distance.specs.Wrote.{Wrote};
ghost use Rattle.dilation.specs.Window.{On};
ghost use Rattle.dilation.specs.Parts.{Down};

use super::window::Window;
use distance::columns::{NONE, from_above, from_below};

// A row of n cells from base on: the rows up to a mark, from those of the row before it in `run`.
fn down_row(marks: &[u8], base: usize, n: usize, run: &mut [u32], work: &mut [u32])
    requires n_in_bounds { base + n ≤ length marks.now }
    requires n_in_bounds_2 { base + n ≤ length work.old }
    requires n_in_bounds_3 { n ≤ length run.old }
    ensures wrote { Wrote (λ k. from_above (get_or marks.now (base + k) 0) 1 (get_or run.old k 0)) 0 0 n run.old run.new }
    ensures wrote_2 { Wrote (λ k. from_above (get_or marks.now (base + k) 0) 1 (get_or run.old k 0)) base 0 n work.old work.new }
{
    // By number: nothing is known of what a zip with `iter_mut` wrote.
    for i in 0..n {
        let d = from_above(marks[base + i], 1, run[i]);
        run[i] = d;
        work[base + i] = d;
    }
}

// All rows of the window.
pub fn down(marks: &[u8], nx: usize, w: Window, work: &mut [u32])
    requires on { On nx w }
    requires nx_in_bounds { w.hi * nx ≤ length marks.now }
    requires nx_in_bounds_2 { w.hi * nx ≤ length work.old }
    ensures { (length work.new ≡ length work.old) × Down marks.now nx w w.hi work.new }
{
    let mut run = [NONE; 4096];
    let n = w.right - w.left;
    for j in w.lo..w.hi {
        down_row(marks, j * nx + w.left, n, &mut run, work);
    }
}

// A row's rows to a mark on either side, from those of the row after it in `run`.
pub fn up_row(work: &[u32], base: usize, n: usize, run: &mut [u32])
    requires n_in_bounds { base + n ≤ length work.now }
    requires n_in_bounds_2 { n ≤ length run.old }
    ensures { Wrote (λ k. from_below (get_or work.now (base + k) 0) (get_or run.old k 0)) 0 0 n run.old run.new }
{
    // By number: nothing is known of what a zip with `iter_mut` wrote.
    for i in 0..n {
        run[i] = from_below(work[base + i], run[i]);
    }
}
