// A crescent: from, to and radius; then how many cells it clears, and the fingerprints of the log, of the
// map after it, and of the map when it is undone.
ghost use Rattle.std.specs.Prelude.{◌≡◌, ◌^◌, ◌≤◌, length, true, IfSome};
ghost use Rattle.raster.specs.Grid.{Over};
ghost use Rattle.vectors_maps.specs.Maps.{Small};
ghost use Rattle.vectors_maps.specs.Answers.{cut_of, Crescent};

use super::maps::{grid, make, point};
use bits::float;
use geom::vec2::Vec2;
use prints::print;
use raster::grid::Grid;
use raster::log::{clear_disk_after_logged, undo};

#[derive(Clone, Copy)]
struct Removed {
    count: usize,
    log: u64,
    after: u64,
    undone: u64,
}

// Prints are of the first n cells.
fn cut(g: Grid, n: usize, from: Vec2, to: Vec2, r: f64, map: &mut [u8], log: &mut [u32]) -> Removed
    requires over { Over g (length map.old) }
    requires n_in_bounds { (n ≤ length map.old) × (length map.old ≤ length log.old) × (length map.old ≤ 2 ^ 32) }
    ensures { result ≡ cut_of g n from to r map.old log.old }
{
    let count = clear_disk_after_logged(g, map, from, to, r, log, 0);
    let cells = print(&log[..count]);
    let after = print(&map[..n]);
    undo(map, &log[..count]);
    let undone = print(&map[..n]);
    Removed {
        count,
        log: cells,
        after,
        undone,
    }
}

pub fn judged(s: &[u64; 64], last: usize, nx: usize, ny: usize) -> Option<bool>
    requires { Small nx ny }
    ensures { IfSome result (λ agrees. agrees ≡ true → Crescent s.now nx ny) }
{
    if last != 16 {
        return None;
    }
    let mut map = [0u8; 1024];
    let mut log = [0u32; 1024];
    let n = ny * nx;
    make(s[1], s[2], n, &mut map);
    let g = grid(s, nx, ny);
    let c = cut(
        g,
        n,
        point(s, 8),
        point(s, 10),
        float(s[12]),
        &mut map,
        &mut log,
    );
    Some((c.count as u64 == s[13]) & (c.log == s[14]) & (c.after == s[15]) & (c.undone == s[16]))
}
