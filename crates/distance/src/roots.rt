// The distances in cells that squares stand for.
ghost use Rattle.std.specs.Prelude.{◌≡◌, ◌≤◌, length};
ghost use Rattle.distance.specs.Rooted.{rooted_of, distances_of};

use super::FAR;

pub fn distance_of(square: u32) -> f64
    ensures { result ≡ rooted_of square }
{
    if square == FAR {
        return f64::from_bits(0x7ff0_0000_0000_0000);
    }
    if square == 0 {
        return 0.0;
    }
    numbers::root::whole_root(square as u64)
}

// The distances of the first n squares.
pub fn distances(squares: &[u32], n: usize, out: &mut [f64])
    requires n_in_bounds { n ≤ length squares.now }
    requires n_in_bounds_2 { n ≤ length out.old }
    ensures { out.new ≡ distances_of n squares.now out.old }
{
    for (k, &square) in squares[..n].iter().enumerate() {
        out[k] = distance_of(square);
    }
}
