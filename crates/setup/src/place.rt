// The tests that planning makes of a tool's place.
ghost use Rattle.std.specs.Prelude.{◌≡◌, ◌≤◌, length};
ghost use Rattle.raster.specs.Grid.{Over};
ghost use Rattle.raster.specs.Contact.{samples_of};
ghost use Rattle.rims.specs.Boxes.{Boxed};
ghost use Rattle.rims.specs.Tiles.{Tiled};
ghost use Rattle.setup.specs.Tables.{less_of, Tables};
ghost use Rattle.setup.specs.Place.{Walls, wall_at, allowed_at, free_at, contact_at, bite_of};

use super::Setup;
use geom::vec2::Vec2;
use raster::contact::{Contact, samples_of};
use raster::grid::Grid;
use rims::contact::rim_hits;

// Whether the wall distance of p's cell, and twice a cell, reach `keep`: the cheap test.
fn wall_at(g: Grid, wall: &[f64], keep: f64, p: Vec2) -> bool
    requires { Over g (length wall.now) }
    ensures { result ≡ wall_at g wall.now keep p }
{
    let f = raster::grid::cell_of(g, p);
    let Some((i, j)) = f else {
        return false;
    };
    let k = raster::grid::index_of(raster::grid::cell_no(g, i, j));
    wall[k] + 2.0 * g.cell >= keep
}

// The tool centre may be at p: in the region, and at least `keep` from every wall and island.
pub fn allowed_at(s: &Setup, wall: &[f64], vs: &[f64], lens: &[u32], p: Vec2) -> bool
    requires { Walls s.now wall.now vs.now lens.now }
    ensures { result ≡ allowed_at s.now wall.now vs.now lens.now p }
{
    let g = s.grid;
    let region = s.region;
    let keep = s.keep;
    if wall_at(g, wall, keep.r, p) {
        if geom::segment::any_within(vs, lens, region, p, keep) {
            return false;
        }
        return geom::region::contains(vs, lens, region, p);
    }
    false
}

// The tool at p touches no stock.
pub fn free(s: Setup, map: &[u8], p: Vec2) -> bool
    requires { Over s.grid (length map.now) }
    ensures { result ≡ free_at s map.now p }
{
    let g = s.grid;
    raster::stock::count_disk(g, map, p, s.r) == 0
}

// Contact of a tool of radius r at p, by the table at `at`.
fn contact(s: &Setup, map: &[u8], tiles: &[u8], rim: &[f64], p: Vec2, r: f64, at: usize) -> Contact
    requires over { Over s.now.grid (length map.now) }
    requires tiled { Tiled s.now.grid map.now tiles.now }
    requires tables { Tables s.now rim.now }
    requires at_bound { (at ≤ 14848) × Boxed s.now.grid r (samples_of s.now.samples) at rim.now }
    ensures { result ≡ contact_at s.now map.now p r }
{
    let n = samples_of(s.samples);
    Contact {
        hits: rim_hits(s.grid, map, tiles, p, r, rim, n, at),
        samples: n,
    }
}

// At the wider radius, as of a pass.
pub fn contact_wide(s: &Setup, map: &[u8], tiles: &[u8], rim: &[f64], p: Vec2) -> Contact
    requires over { Over s.now.grid (length map.now) }
    requires tiled { Tiled s.now.grid map.now tiles.now }
    requires tables { Tables s.now rim.now }
    ensures { result ≡ contact_at s.now map.now p s.now.r_guard }
{
    contact(s, map, tiles, rim, p, s.r_guard, 12544)
}

// At a cell less than the tool's radius, as of a link.
pub fn contact_less(s: &Setup, map: &[u8], tiles: &[u8], rim: &[f64], p: Vec2) -> Contact
    requires over { Over s.now.grid (length map.now) }
    requires tiled { Tiled s.now.grid map.now tiles.now }
    requires tables { Tables s.now rim.now }
    ensures { result ≡ contact_at s.now map.now p (less_of s.now) }
{
    let g = s.grid;
    contact(s, map, tiles, rim, p, s.r - g.cell, 14848)
}

// How deep a straight cut at the target bites.
pub fn bite_of(s: Setup) -> f64
    ensures { result ≡ bite_of s }
{
    s.r * (1.0 - numbers::circle::cos(s.target))
}
