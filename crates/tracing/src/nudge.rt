// Points on the boundary of the allowed cells, pulled to the allowed side.
ghost use Rattle.std.specs.Prelude.{◌≡◌, ◌+◌, ◌*◌, ◌≤◌, length};
ghost use Rattle.loops.specs.Frame.{Only};
ghost use Rattle.setup.specs.Layout.{traced_from, guide_from};
ghost use Rattle.setup.specs.Place.{cells_of, allowed_at, Walls};
ghost use Rattle.links.specs.Path.{wall_in, Fitted};
ghost use Rattle.workspace.specs.Lies.{traced_in};
ghost use Rattle.tracing.specs.Ring.{around_of, look_round, nudged_by, nudge_put, nudge_all};

use geom::points::put;
use geom::region::vertex;
use geom::vec2::Vec2;
use numbers::cast::float_of;
use numbers::circle::TAU;
use setup::place::allowed_at;
use setup::{Setup, layout};

// Point k of sixteen round q, at r quarters of a cell.
fn around(cell: f64, q: Vec2, r: usize, k: usize) -> Vec2
    ensures { result ≡ around_of cell q r k }
{
    let rr = float_of(r) * 0.25 * cell;
    q.add(Vec2::from_angle(TAU * float_of(k) / 16.0).scale(rr))
}

// The first of the sixteen that is allowed.
fn look_round(s: Setup, wall: &[f64], vs: &[f64], lens: &[u32], q: Vec2, r: usize) -> Option<Vec2>
    requires { Walls s wall.now vs.now lens.now }
    ensures { result ≡ look_round (allowed_at s wall.now vs.now lens.now) s.grid.cell q r }
{
    let g = s.grid;
    for k in 0..16 {
        let p = around(g.cell, q, r, k);
        if allowed_at(&s, wall, vs, lens, p) {
            return Some(p);
        }
    }
    None
}

// q where it is allowed; else the first place that is found, up to two cells away; else q.
pub fn nudge_inside(s: Setup, wall: &[f64], vs: &[f64], lens: &[u32], q: Vec2) -> Vec2
    requires { Walls s wall.now vs.now lens.now }
    ensures { result ≡ nudged_by s wall.now vs.now lens.now q }
{
    if allowed_at(&s, wall, vs, lens, q) {
        return q;
    }
    for r in 1..9 {
        let n = look_round(s, wall, vs, lens, q, r);
        if let Some(p) = n {
            return p;
        }
    }
    q
}

// Pulls in point k of those that were traced.
fn nudge_at(s: Setup, vs: &[f64], lens: &[u32], w: &mut [f64], k: usize)
    requires walls { Walls s (wall_in s w.old) vs.now lens.now }
    requires s_in_bounds { 32 * cells_of s ≤ length w.old }
    requires k_bound { k + 1 ≤ 2 * cells_of s }
    ensures w_after { traced_in (cells_of s) w.new ≡ nudge_put (nudged_by s (wall_in s w.old) vs.now lens.now) k (traced_in (cells_of s) w.old) }
    ensures only { Only (traced_from (cells_of s)) (guide_from (cells_of s)) w.old w.new }
{
    let n = layout::cells(s.grid);
    let traced = layout::traced(n);
    let guide = layout::guide(n);
    let q = vertex(&w[traced..guide], k);
    let p = nudge_inside(s, &w[0..n], vs, lens, q);
    put(&mut w[traced..guide], k, p);
}

// Pulls in the first m points.
pub fn nudge_all(s: Setup, vs: &[f64], lens: &[u32], w: &mut [f64], m: usize)
    requires walls { Walls s (wall_in s w.old) vs.now lens.now }
    requires s_in_bounds { 32 * cells_of s ≤ length w.old }
    requires m_bound { m ≤ 2 * cells_of s }
    ensures w_after { traced_in (cells_of s) w.new ≡ nudge_all (nudged_by s (wall_in s w.old) vs.now lens.now) m (traced_in (cells_of s) w.old) }
    ensures only { Only (traced_from (cells_of s)) (guide_from (cells_of s)) w.old w.new }
{
    for k in 0..m {
        nudge_at(s, vs, lens, w, k);
    }
}
