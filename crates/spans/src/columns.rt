// The columns that a half-width gives about the points of a column: at most, and at least, over all columns with room.
ghost use Rattle.std.specs.Prelude.{◌≡◌, IfSome, ◌+◌, ◌-◌, ◌*◌, ◌≤◌, ◌<◌};
ghost use Rattle.raster.specs.Grid.{Sides};
ghost use Rattle.spans.specs.Ends.{span_of, Short, Wider, Narrower, Most, Least, Outer, Inner};

use super::edges::{below, beyond};
use raster::disk::{Cols, cols_from, place};
use raster::grid::Grid;

// Columns counted from column i - s on, both in.
#[derive(Clone, Copy)]
pub struct Bounds {
    pub first: usize,
    pub last: usize,
}

// The columns whose centres lie from x0 to x1.
fn span(g: Grid, x0: f64, x1: f64) -> Option<Cols>
    ensures { result ≡ span_of g x0 x1 }
{
    let o = g.origin.x;
    let cell = g.cell;
    cols_from(place(x0, o, cell), place(x1, o, cell), g.nx)
}

// The bounds widened to a span in the row of a centre in column i; none where the span begins before column i - s.
fn widened(b: Bounds, s: usize, i: usize, p: Option<Cols>) -> Option<Bounds>
    requires { (s ≤ 65536) × Short p }
    ensures { IfSome result (Wider s i p b) }
{
    let Some((k, l)) = p else {
        return Some(b);
    };
    if k + s < i {
        return None;
    }
    let first = (k + s).saturating_sub(i);
    let last = (l + s).saturating_sub(i);
    Some(Bounds {
        first: first.min(b.first),
        last: b.last.max(last),
    })
}

// The bounds narrowed to a span; none where there is no span, or it ends before column i - s.
fn narrowed(b: Bounds, s: usize, i: usize, p: Option<Cols>) -> Option<Bounds>
    requires { (s ≤ 65536) × Short p }
    ensures { IfSome result (Narrower s i p b) }
{
    let (k, l) = p?;
    if l + s < i {
        return None;
    }
    let first = (k + s).saturating_sub(i);
    let last = (l + s).saturating_sub(i);
    Some(Bounds {
        first: b.first.max(first),
        last: last.min(b.last),
    })
}

fn most(g: Grid, s: usize, h: f64) -> Option<Bounds>
    requires { Sides g × (s ≤ 65536) }
    ensures { IfSome result (Most g s h (g.nx - s)) }
{
    let mut b = Bounds {
        first: 2 * s,
        last: 0,
    };
    let o = g.origin.x;
    let cell = g.cell;
    for i in s..g.nx.saturating_sub(s) {
        b = widened(
            b,
            s,
            i,
            span(g, below(o, cell, i) - h, beyond(o, cell, i) + h),
        )?;
    }
    Some(b)
}

fn fewest(g: Grid, s: usize, h: f64) -> Option<Bounds>
    requires { Sides g × (s ≤ 65536) }
    ensures { IfSome result (Least g s h (g.nx - s)) }
{
    let mut b = Bounds {
        first: 0,
        last: 2 * s,
    };
    let o = g.origin.x;
    let cell = g.cell;
    for i in s..g.nx.saturating_sub(s) {
        b = narrowed(
            b,
            s,
            i,
            span(g, beyond(o, cell, i) - h, below(o, cell, i) + h),
        )?;
    }
    Some(b)
}

// The columns of a row whose height is at most h2.
pub fn outer_of(g: Grid, s: usize, h2: f64) -> Option<Bounds>
    requires { Sides g × (s ≤ 65536) }
    ensures { IfSome result (Outer g s h2) }
{
    if h2 < 0.0 {
        return Some(Bounds { first: 1, last: 0 });
    }
    most(g, s, numbers::root::sqrt(h2))
}

// The columns that a row has whose height is at least h2.
pub fn inner_of(g: Grid, s: usize, h2: f64) -> Bounds
    requires { Sides g × (s ≤ 65536) }
    ensures { Inner g s h2 result }
{
    if 0.0 <= h2 {
        if let Some(b) = fewest(g, s, numbers::root::sqrt(h2)) {
            return b;
        }
    }
    Bounds { first: 1, last: 0 }
}
