// The row pass: the lower envelope of the parabolas of a row's columns. Parabola p has the key
// d * d + p * p, d being its column's rows to a mark. Those on the envelope stand on a stack from
// place s on, three numbers each: the column, its key, and where it begins to be lowest.
ghost use Rattle.std.specs.Prelude.{◌≡◌, ◌+◌, ◌*◌, ◌/◌, ◌≤◌, ◌<◌, length, get_or};
ghost use Rattle.distance.specs.Least.{MapSides};
ghost use Rattle.distance.specs.Wrote.{Wrote};
ghost use Rattle.distance.specs.Envelope.{Sound, Popped, Top, Rest, Taken, Stack, key_of, height_of, row_keys, Filled, RowOf, RowsOf};

use super::FAR;
use super::columns::NONE;
use super::write::put;

// How many stacked parabolas are left once those are dropped that q beats where they begin.
fn pop(work: &[u32], s: usize, nx: usize, q: u32, key: u32, n: usize) -> usize
    requires nx_in_bounds { s + 3 * nx ≤ length work.now }
    requires sound { Sound work.now s nx q n }
    requires q_lt_nx { q < nx }
    requires key_bound { key ≤ 33538050 }
    ensures { Popped work.now s q key n result }
{
    for k in (0..n).rev() {
        let i = s + 3 * k;
        let p = work[i];
        let t = work[i + 2];
        if work[i + 1] + 2 * (t * (q - p)) <= key {
            return k + 1;
        }
    }
    0
}

// Where two parabolas d columns apart meet, the later one's key being higher by rise.
fn meet(rise: u32, d: u32) -> u32
    requires d_nonzero { 0 < d }
    requires d_bound { d < 4096 }
    requires rise_bound { rise ≤ 33538050 }
    ensures { result ≡ rise / (2 * d) + 1 }
{
    // the usual case, without a division
    if d == 1 {
        return rise / 2 + 1;
    }
    rise / (2 * d) + 1
}

// A parabola on top of r others.
fn push(work: &mut [u32], s: usize, r: usize, q: u32, key: u32, x: u32)
    requires { s + 3 * r + 3 ≤ length work.old }
    ensures { Top work.old s r q key x work.new }
{
    let k = s + 3 * r;
    work[k] = q;
    work[k + 1] = key;
    work[k + 2] = x;
}

// Parabola q on top of the r that are left, from where it is lower than the one below it.
fn top(work: &mut [u32], s: usize, nx: usize, q: u32, key: u32, n: usize, r: usize) -> usize
    requires nx_in_bounds { s + 3 * nx ≤ length work.old }
    requires sound { Sound work.old s nx q n }
    requires q_lt_nx { q < nx }
    requires key_bound { key ≤ 33538050 }
    requires popped { Popped work.old s q key n r }
    ensures taken { Taken s nx q key n result work.old work.new }
    ensures rest { Rest s nx work.old work.new }
{
    if r == 0 {
        push(work, s, 0, q, key, 0);
        return 1;
    }
    let k = s + 3 * (r - 1);
    let x = meet(key - work[k + 1], q - work[k]);
    if (x as usize) < nx {
        push(work, s, r, q, key, x);
        return r + 1;
    }
    r
}

// The stack with parabola q, if column q has a mark.
fn place(work: &mut [u32], base: usize, s: usize, nx: usize, q: usize, n: usize) -> usize
    requires nx_bound { base + nx ≤ s }
    requires nx_in_bounds { s + 3 * nx ≤ length work.old }
    requires sound { Sound work.old s nx q n }
    requires q_lt_nx { q < nx }
    ensures taken { Taken s nx q (key_of q (get_or work.old (base + q) 0)) n result work.old work.new }
    ensures rest { Rest s nx work.old work.new }
{
    let d = work[base + q];
    if d < NONE {
        let y = q as u32;
        let key = d * d + y * y;
        let r = pop(work, s, nx, y, key, n);
        return top(work, s, nx, y, key, n, r);
    }
    n
}

// The stack of the row's parabolas.
fn envelope(work: &mut [u32], base: usize, s: usize, nx: usize) -> usize
    requires nx_bound { nx ≤ 4096 }
    requires nx_bound_2 { base + nx ≤ s }
    requires nx_in_bounds { s + 3 * nx ≤ length work.old }
    ensures stack { Stack (row_keys work.old base) work.new s nx nx result }
    ensures rest { Rest s nx work.old work.new }
{
    let mut n = 0;
    for q in 0..nx {
        n = place(work, base, s, nx, q, n);
    }
    n
}

// The heights of parabola p, of the given key, from a to e.
fn span(work: &mut [u32], base: usize, p: u32, key: u32, a: usize, e: usize)
    requires e_in_bounds { base + e ≤ length work.old }
    requires e_bound { e ≤ 4096 }
    requires p_bound { p < 4096 }
    requires p_bound_2 { p * p ≤ key }
    requires key_bound { key ≤ 33538050 }
    ensures { Wrote (height_of p key) base a e work.old work.new }
{
    for x in a..e {
        let z = x as u32;
        work[base + x] = (key + z * z) - 2 * (z * p);
    }
}

// The envelope's heights, from the last region to the first.
fn fill(work: &mut [u32], base: usize, s: usize, nx: usize, n: usize)
    requires nx_bound { base + nx ≤ s }
    requires nx_in_bounds { s + 3 * nx ≤ length work.old }
    requires sound { Sound work.old s nx nx n }
    requires n_nonzero { 0 < n }
    ensures { Filled s nx n base 0 work.old work.new }
{
    let mut e = nx;
    for k in (0..n).rev() {
        let i = s + 3 * k;
        let p = work[i];
        let key = work[i + 1];
        let a = work[i + 2] as usize;
        span(work, base, p, key, a, e);
        e = a;
    }
}

// A row: from its cells' rows to a mark to their least squared distances.
fn row(work: &mut [u32], base: usize, s: usize, nx: usize)
    requires nx_bound { nx ≤ 4096 }
    requires nx_bound_2 { base + nx ≤ s }
    requires nx_in_bounds { s + 3 * nx ≤ length work.old }
    ensures { RowOf nx base s work.old work.new }
{
    let n = envelope(work, base, s, nx);
    if n == 0 {
        put(work, base, nx, FAR);
    } else {
        fill(work, base, s, nx, n);
    }
}

pub fn all(nx: usize, ny: usize, s: usize, work: &mut [u32])
    requires map_sides { MapSides nx ny }
    requires nx_bound { ny * nx ≤ s }
    requires nx_in_bounds { s + 3 * nx ≤ length work.old }
    ensures { RowsOf nx ny s ny work.old work.new }
{
    for j in 0..ny {
        row(work, j * nx, s, nx);
    }
}
