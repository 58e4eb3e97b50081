// The map and the grid that a line names: seed, share, columns and rows, then the corner and the cell.
ghost use Rattle.std.specs.Prelude.{◌≡◌, ◌<◌, ◌≤◌, length, MatchOption};
ghost use Rattle.vectors_maps.specs.Maps.{made_of, grid_of, point_at};

use bits::float;
use geom::vec2::Vec2;
use prints::mix;
use raster::grid::Grid;

// A number of a line that may be at most so great.
pub fn at_most(n: u64, most: u64) -> Option<usize>
    ensures { MatchOption result (most < n) (λ k. (k ≡ n) × (k ≤ most)) }
{
    if n <= most { Some(n as usize) } else { None }
}

// The first n cells: x becomes 48271 x, by the remainder of 2^31 - 1, and a cell is stock where the last
// eight bits of x are below the share. The other cells stay.
pub fn make(seed: u64, share: u64, n: usize, map: &mut [u8])
    requires { n ≤ length map.old }
    ensures { map.new ≡ made_of seed share n map.old }
{
    let mut x = seed;
    // By index: the proof with map[..n].iter_mut() did not close, since made_of is of the whole map.
    for k in 0..n {
        x = mix(x, 0);
        if x % 256 < share {
            map[k] = 1;
        } else {
            map[k] = 0;
        }
    }
}

pub fn grid(s: &[u64; 64], nx: usize, ny: usize) -> Grid
    ensures { result ≡ grid_of s.now nx ny }
{
    Grid {
        origin: point(s, 5),
        cell: float(s[7]),
        nx,
        ny,
    }
}

pub fn point(s: &[u64; 64], k: usize) -> Vec2
    requires { k ≤ 62 }
    ensures { result ≡ point_at s.now k }
{
    Vec2 {
        x: float(s[k]),
        y: float(s[k + 1]),
    }
}
