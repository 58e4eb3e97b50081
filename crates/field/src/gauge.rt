// What a round of the engagement field fixes once, and the field at one cell. Distances stay squares of
// whole numbers.
ghost use Rattle.std.specs.Prelude.{◌≡◌, ◌*◌, ◌≤◌, ◌<◌, length};
ghost use Rattle.raster.specs.Grid.{Over, center_of};
ghost use Rattle.setup.specs.Place.{contact_at};
ghost use Rattle.setup.specs.Tables.{Tables};
ghost use Rattle.field.specs.Field.{low_of, value_at, wanted_at};
ghost use Rattle.field.specs.Gauge.{Gauged, KnownAt};

use distance::limits::{Limit, Threshold};
use numbers::circle::TAU;
use raster::contact::{Contact, samples_of};
use rims::hits::centre_hits;
use setup::Setup;

// What a round fixes: `far` tells cells that no stock is near to, `deep` those deep in stock, `near` those
// that a cut since the last round changed, unless all are worked out anew; `full` is a full turn.
#[derive(Clone, Copy)]
pub struct Gauge {
    pub setup: Setup,
    pub all: bool,
    pub far: Limit,
    pub deep: Limit,
    pub near: Limit,
    pub full: f32,
    ghost gauged: { Gauged setup far deep near full },
}

// The field at a cell, and whether it was sampled.
#[derive(Clone, Copy)]
pub struct Value {
    pub v: f32,
    pub sampled: bool,
}

fn low_of(s: Setup) -> f64
    ensures { result ≡ low_of s }
{
    let bite = setup::place::bite_of(s);
    let c = s.grid.cell;
    s.r - bite - 3.0 * c
}

pub fn gauge_of(s: Setup, all: bool) -> Gauge
    ensures { (result.setup ≡ s) × (result.all ≡ all) }
{
    let c = s.grid.cell;
    let far = Limit::of(Threshold {
        scale: Some(c),
        strict: false,
        x: s.r + 1.5 * c,
    });
    let deep = Limit::of(Threshold {
        scale: Some(c),
        strict: true,
        x: low_of(s),
    });
    let near = Limit::of(Threshold {
        scale: None,
        strict: false,
        x: (s.r + 2.0 * c) / c,
    });
    Gauge {
        setup: s,
        all,
        far,
        deep,
        near,
        full: numbers::narrow::narrow(TAU),
    }
}

// Whether cell k is to be worked out.
pub fn wanted(g: Gauge, allowed: &[u8], near: &[u32], k: usize) -> bool
    requires k_in_bounds { (k < length allowed.now) × (k < length near.now) }
    ensures { result ≡ wanted_at g.setup g.all allowed.now near.now k }
{
    if allowed[k] == 1 {
        if g.all {
            return true;
        }
        return g.near.is_within(near[k]);
    }
    false
}

// Whether cell k is likely to be sampled: which cells are counted together hangs on it, and no result.
pub fn is_sampled(g: Gauge, allowed: &[u8], stock: &[u32], near: &[u32], k: usize) -> bool
    requires k_in_bounds { (k < length allowed.now) × (k < length near.now) × (k < length stock.now) }
{
    if wanted(g, allowed, near, k) {
        let square = stock[k];
        return !g.far.beyond(square) & !g.deep.is_within(square);
    }
    false
}

// Contact of the tool at the centre of cell (i, j). The hits of the rim around it are told already, or counted.
fn contact_at(
    s: Setup,
    map: &[u8],
    rim: &[f64],
    known: Option<usize>,
    i: usize,
    j: usize,
) -> Contact
    requires over { Over s.grid (length map.now) }
    requires tables { Tables s rim.now }
    requires known_at { KnownAt s map.now i j known }
    ensures { result ≡ contact_at s map.now (center_of s.grid i j) s.r }
{
    let samples = samples_of(s.samples);
    if let Some(hits) = known {
        return Contact { hits, samples };
    }
    let hits = centre_hits(s.grid, map, s.r, rim, samples, i, j);
    Contact { hits, samples }
}

pub fn value_at(
    g: Gauge,
    map: &[u8],
    stock: &[u32],
    rim: &[f64],
    known: Option<usize>,
    i: usize,
    j: usize,
) -> Value
    requires over { Over g.setup.grid (length map.now) }
    requires nx_in_bounds { g.setup.grid.ny * g.setup.grid.nx ≤ length stock.now }
    requires tables { Tables g.setup rim.now }
    requires known_at { KnownAt g.setup map.now i j known }
    requires i_lt_nx { (i < g.setup.grid.nx) × (j < g.setup.grid.ny) }
    ensures { result ≡ value_at g.setup map.now stock.now i j }
{
    let s = g.setup;
    let grid = s.grid;
    let nx = grid.nx;
    let square = stock[j * nx + i];
    if g.far.beyond(square) {
        return Value {
            v: 0.0,
            sampled: false,
        };
    }
    if g.deep.is_within(square) {
        return Value {
            v: g.full,
            sampled: false,
        };
    }
    let t = contact_at(s, map, rim, known, i, j);
    Value {
        v: numbers::narrow::narrow(raster::contact::angle_of(t)),
        sampled: true,
    }
}
