// A region filled in: the lengths of three loops, of which an empty one is none, and their vertices; then how
// many cells are stock, and the fingerprint of the map.
ghost use Rattle.std.specs.Prelude.{◌≡◌, ◌+◌, ◌≤◌, [], ◌∷◌, length, replicate, true, IfSome};
ghost use Rattle.geom.specs.Vec.{f0};
ghost use Rattle.raster.specs.Grid.{Over};
ghost use Rattle.filling.specs.Fill.{fill_region};
ghost use Rattle.vectors_maps.specs.Maps.{Small};
ghost use Rattle.vectors_maps.specs.Answers.{vertices_of, three_loops, Fill};

use super::maps::{at_most, grid, make};
use bits::float;
use filling::region::fill_region;
use geom::region::Region;
use prints::print;
use raster::grid::Grid;
use raster::stock::count;

fn vertices(s: &[u64; 64], vs: &mut [f64; 48])
    ensures { vs.new ≡ vertices_of s.now vs.old }
{
    for (k, v) in vs.iter_mut().enumerate() {
        *v = float(s[k + 11]);
    }
}

// The region of loops of a, b and c vertices.
fn filled(g: Grid, s: &[u64; 64], a: u32, b: u32, c: u32, map: &mut [u8])
    requires over { Over g (length map.old) }
    requires c_bound { a + b + c ≤ 24 }
    ensures { map.new ≡ fill_region g (vertices_of s.now (replicate 48 f0)) (a ∷ b ∷ c ∷ []) three_loops map.old }
{
    let mut vs = [0.0f64; 48];
    let mut xs = [0.0f64; 4096];
    vertices(s, &mut vs);
    let lens = [a, b, c];
    let region = Region {
        at: 0,
        first: 0,
        loops: 3,
    };
    fill_region(g, map, &vs, &lens, region, &mut xs);
}

pub fn judged(s: &[u64; 64], last: usize, nx: usize, ny: usize) -> Option<bool>
    requires { Small nx ny }
    ensures { IfSome result (λ agrees. agrees ≡ true → Fill s.now last nx ny) }
{
    let a = at_most(s[8], 24)? as u32;
    let b = at_most(s[9], 24)? as u32;
    let c = at_most(s[10], 24)? as u32;
    let total = (a + b + c) as usize;
    if 24 < total {
        return None;
    }
    if last != 2 * total + 12 {
        return None;
    }
    let mut map = [0u8; 1024];
    let n = ny * nx;
    make(s[1], s[2], n, &mut map);
    filled(grid(s, nx, ny), s, a, b, c, &mut map);
    let standing = count(&map) as u64;
    Some((standing == s[last - 1]) & (print(&map[..n]) == s[last]))
}
