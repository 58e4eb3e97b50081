// The open cell that is farthest from the walls.
ghost use Rattle.std.specs.Prelude.{◌≡◌, ◌*◌, ◌≤◌, ◌<◌, length};
ghost use Rattle.setup.specs.Layout.{most, map_in, allowed_in};
ghost use Rattle.workspace.specs.Standing.{reach_in, abandoned_in};
ghost use Rattle.flood.specs.Place.{open_at, better_of, farther_of, farthest_of};

use raster::grid::{CellNo, cell_at};
use setup::layout;

// A cell and its distance from the walls.
#[derive(Clone, Copy)]
pub struct Far {
    pub cell: CellNo,
    pub distance: f64,
}

// Whether cell k is stock that the tool can reach and that is not given up.
pub fn is_open(b: &[u8], n: usize, k: usize) -> bool
    requires n_le_most { n ≤ most }
    requires n_in_bounds { 8 * n ≤ length b.now }
    requires k_lt_n { k < n }
    ensures { result ≡ open_at (map_in n b.now) (reach_in n b.now) (abandoned_in n b.now) k }
{
    let reach = layout::reach(n);
    let abandoned = layout::abandoned(n);
    let reached = b[reach + k] == 1;
    let given_up = b[abandoned + k] == 1;
    (b[k] == 1) & (reached & !given_up)
}

// The next cell where it is farther than the best so far.
fn better(best: Option<Far>, next: Far) -> Far
    ensures { result ≡ better_of next best }
{
    let Some(b) = best else {
        return next;
    };
    if next.distance > b.distance {
        return next;
    }
    b
}

fn farther(b: &[u8], wall: &[f64], n: usize, k: usize, best: Option<Far>) -> Option<Far>
    requires n_le_most { n ≤ most }
    requires n_in_bounds { 8 * n ≤ length b.now }
    requires n_in_bounds_2 { n ≤ length wall.now }
    requires k_lt_n { k < n }
    ensures { result ≡ farther_of (map_in n b.now) (allowed_in n b.now) (reach_in n b.now) (abandoned_in n b.now) wall.now k best }
{
    let allowed = layout::allowed(n);
    if is_open(b, n, k) & (b[allowed + k] == 1) {
        let next = Far {
            cell: cell_at(k),
            distance: wall[k],
        };
        return Some(better(best, next));
    }
    best
}

// Of the open cells where the tool may go the farthest from the walls, the first on a tie.
pub fn farthest(b: &[u8], wall: &[f64], n: usize) -> Option<Far>
    requires n_le_most { n ≤ most }
    requires n_in_bounds { 8 * n ≤ length b.now }
    requires n_in_bounds_2 { n ≤ length wall.now }
    ensures { result ≡ farthest_of (map_in n b.now) (allowed_in n b.now) (reach_in n b.now) (abandoned_in n b.now) wall.now n }
{
    let mut best = None;
    for k in 0..n {
        best = farther(b, wall, n, k, best);
    }
    best
}
