// The straight link: a feed through cleared space, judged by its samples.
ghost use Rattle.std.specs.Prelude.{◌≡◌, ◌≤◌, ◌<◌, length};
ghost use Rattle.raster.specs.Grid.{Over};
ghost use Rattle.rims.specs.Tiles.{Tiled};
ghost use Rattle.setup.specs.Tables.{less_of};
ghost use Rattle.links.specs.Straight.{steps_of, point_of, clear_at, samples_clear, link_clear};

use geom::vec2::Vec2;
use numbers::cast::float_of;
use raster::contact::angle_of;
use setup::Setup;

// A sample for each cell of the way, at least one.
fn steps_of(a: Vec2, b: Vec2, cell: f64) -> usize
    ensures { result ≡ steps_of a b cell }
{
    let n = numbers::whole::ceil(a.distance(b) / cell);
    numbers::cast::sat_u64(numbers::order::max(n, 1.0)) as usize
}

// Sample k of n of the way from a to b.
fn point_of(a: Vec2, b: Vec2, n: usize, k: usize) -> Vec2
    ensures { result ≡ point_of a b n k }
{
    a.lerp(b, float_of(k) / float_of(n))
}

// What the tool meets: where it may be, by the wall distances and the boundary, and the stock with its tiles and
// the tool's tables.
#[derive(Clone, Copy)]
pub struct Ground<'a> {
    pub setup: Setup,
    pub wall: &'a [f64],
    pub vs: &'a [f64],
    pub lens: &'a [u32],
    pub map: &'a [u8],
    pub tiles: &'a [u8],
    pub rim: &'a [f64],
    ghost over: { Over setup.grid (length map.now) },
    ghost tiled: { Tiled setup.grid map.now tiles.now },
}

impl Ground<'_> {
    ghost use Rattle.links.specs.Ground.{Equipped};

    // The tool may be at q, and at a cell less than its radius it touches no stock there.
    fn clear_at(&self, q: Vec2) -> bool
        requires { Equipped self.now }
        ensures { let g = self.now in result ≡ clear_at g.setup g.wall.now g.vs.now g.lens.now g.map.now (less_of g.setup) q }
    {
        let s = &self.setup;
        if setup::place::allowed_at(s, self.wall, self.vs, self.lens, q) {
            let contact = setup::place::contact_less(s, self.map, self.tiles, self.rim, q);
            return angle_of(contact) == 0.0;
        }
        false
    }

    // Whether all n + 1 samples are clear.
    fn samples_clear(&self, a: Vec2, b: Vec2, n: usize) -> bool
        requires equipped { Equipped self.now }
        requires n_bound { n ≤ 200000 }
        ensures { let g = self.now in result ≡ samples_clear g.setup g.wall.now g.vs.now g.lens.now g.map.now (less_of g.setup) a b n }
    {
        for k in 0..n + 1 {
            let q = point_of(a, b, n, k);
            if !self.clear_at(q) {
                return false;
            }
        }
        true
    }

    // A straight feed from a to b touches no stock and stays where the tool may go. The radius is a cell
    // less than the tool's: cells on the rim of a cut are judged at their centres.
    pub fn link_clear(&self, a: Vec2, b: Vec2) -> bool
        requires { Equipped self.now }
        ensures { let g = self.now in result ≡ link_clear g.setup g.wall.now g.vs.now g.lens.now g.map.now a b }
    {
        let g = self.setup.grid;
        let n = steps_of(a, b, g.cell);
        if 200000 < n {
            return false;
        }
        let r = self.setup.r - g.cell;
        if self.samples_clear(a, b, n) {
            return raster::stock::count_disk(g, self.map, b, r) == 0;
        }
        false
    }
}
