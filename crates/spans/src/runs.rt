// Runs of a row's cells: whether one is stock.
ghost use Rattle.std.specs.Prelude.{◌≡◌, true, ◌+◌, ◌≤◌, ◌<◌, min, length};
ghost use Rattle.loops.specs.Loop.{any};
ghost use Rattle.spans.specs.Ends.{is_stock, Bare};

// Columns of a row, both in; none where the last comes before the first.
#[derive(Clone, Copy)]
pub struct Limits {
    pub first: usize,
    pub last: usize,
}

// Whether one of the cells from..to is stock.
pub fn has_stock(map: &[u8], from: usize, to: usize) -> bool
    requires { to ≤ length map.now }
    ensures { result ≡ any (is_stock map.now) from to }
{
    for k in from..to {
        if map[k] == 1 {
            return true;
        }
    }
    false
}

// The column after the last, at most e.
fn end_of(last: usize, e: usize) -> usize
    ensures { result ≡ min (last + 1) e }
{
    if last < e { last + 1 } else { e }
}

// Whether no column of o that is none of n is stock, in the row of nx cells that begins at base.
pub fn is_bare(map: &[u8], base: usize, nx: usize, o: Limits, n: Limits) -> bool
    requires { base + nx ≤ length map.now }
    ensures { result ≡ true → Bare map.now base nx o n }
{
    let e = end_of(o.last, nx);
    let a = o.first.min(e);
    let m = n.first.min(e);
    if has_stock(map, base + a, base + m) {
        return false;
    }
    let b = a.max(end_of(n.last, e));
    !has_stock(map, base + b, base + e)
}
