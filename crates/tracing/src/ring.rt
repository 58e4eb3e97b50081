// The ring along the boundary of where the tool may go.
ghost use Rattle.std.specs.Prelude.{◌*◌, ◌≤◌, ◌≡◌, length};
ghost use Rattle.distance.specs.Nearest.{listed};
ghost use Rattle.setup.specs.Layout.{most, allowed_in, put_run};
ghost use Rattle.setup.specs.Place.{cells_of};
ghost use Rattle.field.specs.Field.{ring_at};
ghost use Rattle.workspace.specs.Standing.{Standing};
ghost use Rattle.tracing.specs.Ring.{TracedRing};

use super::curves::trace;
use super::nudge::nudge_all;
use setup::{Setup, layout};

// 0 where the tool may go, else 1, in the ring's region.
fn lay_ring(n: usize, b: &[u8], f: &mut [f32])
    requires n_le_most { n ≤ most }
    requires n_in_bounds { 8 * n ≤ length b.now }
    requires n_in_bounds_2 { 2 * n ≤ length f.old }
    ensures { f.new ≡ put_run 1 n (listed n (ring_at (allowed_in n b.now))) f.old }
{
    let a = layout::allowed(n);
    let r = layout::ring(n);
    field::round::ring(&b[a..a + n], &mut f[r..r + n]);
}

// Traces the ring and pulls its points in; how many pieces there are.
pub fn trace_ring(
    s: Setup,
    vs: &[f64],
    lens: &[u32],
    b: &mut [u8],
    u: &mut [u32],
    f: &mut [f32],
    w: &mut [f64],
) -> usize
    requires standing { Standing s vs.now lens.now b.old u.old w.old }
    requires s_in_bounds { 2 * cells_of s ≤ length f.old }
    ensures { TracedRing s vs.now lens.now b.old u.old f.old w.old result b.new u.new f.new w.new }
{
    let g = s.grid;
    let n = layout::cells(g);
    let r = layout::ring(n);
    lay_ring(n, b, f);
    let c = trace(g, &f[r..r + n], 0.5, b, u, w);
    nudge_all(s, vs, lens, w, c.points);
    c.pieces
}
