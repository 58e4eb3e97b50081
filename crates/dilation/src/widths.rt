// How many columns away a mark is still within a bound, by the rows to it.
ghost use Rattle.std.specs.Prelude.{◌≡◌, ◌+◌, ◌≤◌, ◌<◌, length};
ghost use Rattle.distance.specs.Least.{square};
ghost use Rattle.dilation.specs.Window.{most};
ghost use Rattle.dilation.specs.Parts.{Width, Widths};

// A number whose square is at least e.
fn root_above(e: u32) -> u32
    requires { e ≤ most }
    ensures { (result ≤ 8192) × (e ≤ square result) }
{
    for w in 0..8192 {
        if e <= w * w {
            return w;
        }
    }
    8192
}

// The first number, up to w, whose square, and that of d, are together at least e.
fn narrowed(e: u32, d: u32, w: u32) -> u32
    requires { (d < 4096) × (w ≤ 8192) × (e ≤ square w + square d) }
    ensures { (result ≤ w) × Width e d result }
{
    for u in (0..w).rev() {
        if u * u + d * d < e {
            return u + 1;
        }
    }
    0
}

// For each number of rows below 4096 how many columns a mark so many rows away reaches; 0 at 4096, where there is no mark.
pub fn fill(e: u32, widths: &mut [u32])
    requires e_le_most { e ≤ most }
    requires in_bounds { 4097 ≤ length widths.old }
    ensures { (length widths.new ≡ length widths.old) × Widths e widths.new }
{
    let mut w = root_above(e);
    for d in 0u32..4096 {
        w = narrowed(e, d, w);
        widths[d as usize] = w;
    }
    widths[4096] = 0;
}
