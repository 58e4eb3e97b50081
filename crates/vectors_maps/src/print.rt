// Fingerprints of distances.
ghost use Rattle.std.specs.Prelude.{◌≡◌};
ghost use Rattle.prints.specs.Print.{printed};
ghost use Rattle.vectors_maps.specs.Print.{root_bits};

use bits::pattern;
use distance::roots::distance_of;
use prints::mix;

// Of the distances that squares stand for, as bit patterns.
pub fn of_roots(squares: &[u32]) -> u64
    ensures { result ≡ printed root_bits 1 squares.now }
{
    let mut h = 1u64;
    for &q in squares {
        h = mix(h, pattern(distance_of(q)));
    }
    h
}
