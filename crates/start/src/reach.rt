// What the tool can do: where it may go, and which stock it then reaches.
ghost use Rattle.std.specs.Prelude.{◌≡◌, ◌+◌, ◌*◌, ◌≤◌, length};
ghost use Rattle.distance.specs.Nearest.{listed};
ghost use Rattle.raster.specs.Grid.{Sides};
ghost use Rattle.setup.specs.Layout.{most, put_run, map_in, allowed_in};
ghost use Rattle.setup.specs.Place.{cells_of};
ghost use Rattle.start.specs.Start.{inside_of, reach_of};
ghost use Rattle.start.specs.Steps.{inside_in, Room, Placed, Reached, near_byte, near_at};

use super::allowed::fill_allowed;
use super::walls::fill_walls;
use distance::limits::{Limit, Threshold};
use setup::{Setup, layout};

// Whether a cell is stock and near enough to where the tool may go.
fn near_byte(l: Limit, start: u8, square: u32) -> u8
    ensures { result ≡ near_byte l.threshold start square }
{
    if start == 1 {
        if l.is_within(square) {
            return 1;
        }
    }
    0
}

// The cells of the stock map whose square is within the bound.
fn mark_near(n: usize, l: Limit, squares: &[u32], b: &mut [u8])
    requires n_le_most { n ≤ most }
    requires n_in_bounds { n ≤ length squares.now }
    requires n_in_bounds_2 { 8 * n ≤ length b.old }
    ensures { b.new ≡ put_run 2 n (listed n (near_at l.threshold (map_in n b.old) squares.now)) b.old }
{
    let a = layout::reach(n);
    for k in 0..n {
        b[a + k] = near_byte(l, b[k], squares[k]);
    }
}

// The squares are scratch.
fn fill_reach(s: Setup, b: &mut [u8], u: &mut [u32])
    requires sides { Sides s.grid }
    requires s_in_bounds { 8 * cells_of s ≤ length b.old }
    requires s_in_bounds_2 { 32 * cells_of s + 8192 ≤ length u.old }
    ensures { b.new ≡ put_run 2 (cells_of s) (reach_of s (map_in (cells_of s) b.old) (allowed_in (cells_of s) b.old)) b.old }
{
    let g = s.grid;
    let n = layout::cells(g);
    let a = layout::allowed(n);
    let e = a + n;
    distance::transform(&b[a..e], 1, g.nx, g.ny, u);
    let t = Threshold {
        scale: Some(g.cell),
        strict: false,
        x: s.r - 0.5 * g.cell,
    };
    mark_near(n, Limit::of(t), u, b);
}

pub fn reach(s: Setup, vs: &[f64], lens: &[u32], b: &mut [u8], u: &mut [u32], w: &mut [f64])
    requires placed { Placed s vs.now lens.now }
    requires room { Room (cells_of s) (length b.old) (length u.old) (length w.old) }
    requires b_value { inside_in (cells_of s) b.old ≡ inside_of s.grid vs.now lens.now s.region }
    ensures { Reached s vs.now lens.now b.old b.new w.new }
{
    let g = s.grid;
    fill_walls(g, b, u, w);
    fill_allowed(s, vs, lens, b, w);
    fill_reach(s, b, u);
}
