// One pass along a guide, tried against the stock map.
ghost use Rattle.std.specs.Prelude.{◌≡◌, ◌+◌, ◌*◌, ◌/◌, ◌-◌, ◌≤◌, ◌<◌, length};
ghost use Rattle.geom.specs.Region.{vertex_of};
ghost use Rattle.geom.specs.Points.{points};
ghost use Rattle.rims.specs.Tiles.{Tiled};
ghost use Rattle.setup.specs.Place.{Walls, allowed_at};
ghost use Rattle.setup.specs.Tables.{Tables};
ghost use Rattle.passes.specs.Simulate.{leg_of, sample_of, gap_of, ps, advance_of, simulate_of, Usable, Fit};

use super::shifts::{Shift, find_shift, max_shift};
use geom::region::vertex;
use geom::vec2::Vec2;
use links::straight::Ground;
use numbers::cast::float_of;
use setup::Setup;
use spans::crescent::clear_crescent;

// A straight part of the guide, its free side and its samples; none where it has no length.
#[derive(Clone, Copy)]
pub struct Leg {
    pub a: Vec2,
    pub b: Vec2,
    pub left: Vec2,
    pub n: usize,
}

// What a pass has come to, beside the map, the log and the triples: `full` where the triples do not fit (the rest counts then too),
// its points, the cells it cleared, the work, and the last point with its shift.
#[derive(Clone, Copy)]
pub struct Trial {
    pub full: bool,
    pub points: usize,
    pub removed: usize,
    pub work: usize,
    pub prev: Vec2,
    pub shift: f64,
}

fn leg_of(h: f64, a: Vec2, b: Vec2) -> Leg
    ensures { result ≡ leg_of h a b }
{
    let d = b.sub(a);
    if d.length() < 1e-12 {
        return Leg {
            a,
            b,
            left: d,
            n: 0,
        };
    }
    let left = d.normalized().perp();
    let m = numbers::cast::sat_u64(numbers::whole::ceil(a.distance(b) / h)) as usize;
    let n = if m < 1 { 1 } else { m };
    Leg { a, b, left, n }
}

// The leg that ends at point k of the guide.
fn leg_at(h: f64, guide: &[f64], k: usize) -> Leg
    requires le_k { 1 ≤ k }
    requires k_in_bounds { 2 * k + 1 < length guide.now }
    ensures { result ≡ leg_of h (vertex_of guide.now (k - 1)) (vertex_of guide.now k) }
{
    let a = vertex(guide, k - 1);
    let b = vertex(guide, k);
    leg_of(h, a, b)
}

// Sample k of the leg, from 1 on.
fn sample(l: Leg, k: usize) -> Vec2
    ensures { result ≡ sample_of l k }
{
    let a = l.a;
    a.lerp(l.b, float_of(k) / float_of(l.n))
}

// A shift that jumps sideways by more than a sample's spacing is a gap, not a path.
fn gap(h: f64, most: f64, q: Vec2, prev: Vec2) -> bool
    ensures { result ≡ gap_of h most q prev }
{
    q.distance(prev) > 2.0 * h + most
}

// The tool goes to q: the crescent is cleared, the point written.
fn advance(
    s: Setup,
    rim: &[f64],
    map: &mut [u8],
    log: &mut [u32],
    triples: &mut [f64],
    kept: usize,
    t: Trial,
    f: Shift,
) -> Trial
    requires tables { Tables s rim.now }
    requires fit { Fit s (ps map.old log.old triples.old t) }
    requires points_in_bounds { kept + t.points < length triples.old / 3 }
    ensures { ps map.new log.new triples.new result ≡ advance_of s kept f.at f.angle f.shift (ps map.old log.old triples.old t) }
{
    let g = s.grid;
    let at = kept + t.points;
    let points = t.points + 1;
    let n = clear_crescent(g, map, t.prev, f.at, s.r, &rim[6144..8192], log, t.removed);
    events::list::put_triple(triples, at, f.at, f.angle);
    Trial {
        full: t.full,
        points,
        removed: n,
        work: t.work,
        prev: f.at,
        shift: f.shift,
    }
}

// Cuts along the guide: the points go to the triples after the kept ones, the cells cleared to the log.
pub fn simulate(
    s: Setup,
    wall: &[f64],
    vs: &[f64],
    lens: &[u32],
    rim: &[f64],
    guide: &[f64],
    map: &mut [u8],
    tiles: &[u8],
    log: &mut [u32],
    triples: &mut [f64],
    kept: usize,
) -> Trial
    requires walls { Walls s wall.now vs.now lens.now }
    requires tables { Tables s rim.now }
    requires usable { Usable s map.old log.old guide.now }
    requires tiled { Tiled s.grid map.old tiles.now }
    ensures { ps map.new log.new triples.new result ≡ simulate_of s (allowed_at s wall.now vs.now lens.now) (points 0 (length guide.now / 2) guide.now) kept map.old log.old triples.old }
{
    let first = vertex(guide, 0);
    let room = triples.len() / 3;
    if room <= kept {
        return Trial {
            full: true,
            points: 0,
            removed: 0,
            work: 0,
            prev: first,
            shift: 0.0,
        };
    }
    events::list::put_triple(triples, kept, first, 0.0);
    let mut t = Trial {
        full: false,
        points: 1,
        removed: 0,
        work: 0,
        prev: first,
        shift: 0.0,
    };
    let g = s.grid;
    let cell = g.cell;
    let h = 0.5 * cell;
    let step = 0.25 * cell;
    let most = max_shift(s);
    let m = guide.len() / 2;
    'outer: for seg in 1..m {
        let leg = leg_at(h, guide, seg);
        let left = leg.left;
        let n = leg.n;
        for k in 0..n {
            let at = sample(leg, k + 1);
            let ground = Ground {
                setup: s,
                wall,
                vs,
                lens,
                map,
                tiles,
                rim,
            };
            let f = find_shift(&ground, at, left, step, most, t.shift, t.work);
            t.work = f.work;
            let Some(shift) = f.found else {
                break 'outer; // no shift serves
            };
            if gap(h, most, shift.at, t.prev) {
                break 'outer;
            }
            if room <= kept + t.points {
                t.full = true;
                break 'outer;
            }
            t = advance(s, rim, map, log, triples, kept, t, shift);
        }
    }
    t
}
