// Document 01's ranges for a leaf called alone. Whether a value is in its range.
ghost use Rattle.std.specs.Prelude.{◌≡◌};
ghost use Rattle.pocket.specs.Ranges.{in_range, contact_fit, coordinate_fit, point_fit, coordinates_fit, radius_fit, cell_fit, angle_fit, root_fit, grid_fit, disk_fit, sides_fit};

use geom::vec2::Vec2;
use numbers::order::{abs, is_finite};
use raster::grid::Grid;

fn is_in_range(x: f64, lo: f64, hi: f64) -> bool
    ensures { result ≡ in_range lo hi x }
{
    is_finite(x) & ((lo <= x) & (x <= hi))
}

fn coordinate_fits(x: f64) -> bool
    ensures { result ≡ coordinate_fit x }
{
    is_finite(x) & (abs(x) <= 20000.0)
}

pub fn point_fits(p: Vec2) -> bool
    ensures { result ≡ point_fit p }
{
    coordinate_fits(p.x) & coordinate_fits(p.y)
}

pub fn coordinates_fit(vs: &[f64]) -> bool
    ensures { result ≡ coordinates_fit vs.now }
{
    for x in vs {
        if !coordinate_fits(*x) {
            return false;
        }
    }
    true
}

fn radius_fits(r: f64) -> bool
    ensures { result ≡ radius_fit r }
{
    is_in_range(r, 0.0, 2000.0)
}

pub fn cell_fits(x: f64) -> bool
    ensures { result ≡ cell_fit x }
{
    is_in_range(x, 0.0001, 100.0)
}

pub fn angle_fits(a: f64) -> bool
    ensures { result ≡ angle_fit a }
{
    is_in_range(a, 0.0, numbers::circle::TAU)
}

pub fn contact_fits(hits: usize, samples: usize) -> bool
    ensures { result ≡ contact_fit hits samples }
{
    (hits <= samples) & ((8 <= samples) & (samples <= 4096))
}

pub fn root_fits(x: f64) -> bool
    ensures { result ≡ root_fit x }
{
    is_finite(x) & (0.0 <= x)
}

pub fn grid_fits(g: Grid) -> bool
    ensures { result ≡ grid_fit g }
{
    let corner = g.origin;
    point_fits(corner) & cell_fits(g.cell)
}

pub fn disk_fits(c: Vec2, r: f64) -> bool
    ensures { result ≡ disk_fit c r }
{
    point_fits(c) & radius_fits(r)
}

pub fn sides_fit(nx: usize, ny: usize) -> bool
    ensures { result ≡ sides_fit nx ny }
{
    if (1 <= nx) & (nx <= 4096) {
        if (1 <= ny) & (ny <= 4096) {
            return ny * nx <= 1048576;
        }
    }
    false
}
