// What a round traces: the field over the distance to stock, its curves at twice the target, smoothed.
ghost use Rattle.std.specs.Prelude.{◌≡◌, ◌*◌, ◌≤◌, length};
ghost use Rattle.raster.specs.Grid.{Sides};
ghost use Rattle.setup.specs.Layout.{run};
ghost use Rattle.setup.specs.Place.{cells_of};
ghost use Rattle.field.specs.Round.{Ready};
ghost use Rattle.workspace.specs.Lies.{Lies};
ghost use Rattle.tracing.specs.Curves.{Room, Beside};
ghost use Rattle.tracing.specs.Round.{level_of, curves_of, TracedRound};

use super::curves::{smooth, trace};
use setup::{Setup, layout};

// How many pieces there are, and the work of the field.
#[derive(Clone, Copy)]
pub struct Traced {
    pub pieces: usize,
    pub work: usize,
}

// The level that passes are traced at.
fn level(s: Setup) -> f32
    ensures { result ≡ level_of s }
{
    numbers::narrow::narrow(2.0 * s.target)
}

// The curves of the field, smoothed; how many pieces there are.
fn curves(s: Setup, f: &[f32], b: &mut [u8], u: &mut [u32], w: &mut [f64]) -> usize
    requires sides { Sides s.grid }
    requires room { Room (cells_of s) b.old u.old w.old }
    requires s_in_bounds { cells_of s ≤ length f.now }
    ensures lies { Lies (cells_of s) (curves_of s (run 0 (cells_of s) f.now)) result u.new w.new }
    ensures beside { Beside (cells_of s) b.old u.old w.old b.new u.new w.new }
{
    let g = s.grid;
    let n = layout::cells(g);
    let c = trace(g, &f[0..n], level(s), b, u, w);
    let m = c.pieces;
    smooth(n, m, g.cell, u, w);
    m
}

// The whole.
pub fn trace_round(
    s: Setup,
    all: bool,
    b: &mut [u8],
    u: &mut [u32],
    f: &mut [f32],
    w: &mut [f64],
) -> Traced
    requires { Ready s b.old u.old w.old f.old }
    ensures { TracedRound s all b.old u.old f.old w.old result b.new u.new f.new w.new }
{
    let sampled = field::round::field(s, all, b, u, w, f);
    let pieces = curves(s, f, b, u, w);
    Traced {
        pieces,
        work: sampled * s.samples,
    }
}
