// The distance map of the cells that are stock: the fingerprints of its squares and of its distances.
ghost use Rattle.std.specs.Prelude.{◌≡◌, true, IfSome};
ghost use Rattle.vectors_maps.specs.Maps.{Small};
ghost use Rattle.vectors_maps.specs.Answers.{Squares};

use super::maps::make;
use super::print::of_roots;
use prints::print;

pub fn judged(s: &[u64; 64], last: usize, nx: usize, ny: usize) -> Option<bool>
    requires { Small nx ny }
    ensures { IfSome result (λ agrees. agrees ≡ true → Squares s.now nx ny) }
{
    if last != 6 {
        return None;
    }
    let mut map = [0u8; 1024];
    let mut work = [0u32; 1120];
    let n = ny * nx;
    make(s[1], s[2], n, &mut map);
    distance::transform(&map, 1, nx, ny, &mut work);
    let squares = &work[..n];
    Some((print(squares) == s[5]) & (of_roots(squares) == s[6]))
}
