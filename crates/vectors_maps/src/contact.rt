// Contact: the tool's place, its radius and how many samples; then the angle.
ghost use Rattle.std.specs.Prelude.{◌≡◌, true, IfSome};
ghost use Rattle.vectors_maps.specs.Maps.{Small};
ghost use Rattle.vectors_maps.specs.Answers.{Contact};

use super::maps::{grid, make, point};
use bits::{float, pattern};
use raster::contact::{angle_of, fill_rim, rim_contact, samples_of};

pub fn judged(s: &[u64; 64], last: usize, nx: usize, ny: usize) -> Option<bool>
    requires { Small nx ny }
    ensures { IfSome result (λ agrees. agrees ≡ true → Contact s.now nx ny) }
{
    let asked = s[11];
    if last != 12 {
        return None;
    }
    if 64 < asked {
        return None;
    }
    let samples = asked as usize;
    let mut map = [0u8; 1024];
    let mut rim = [0.0f64; 128];
    make(s[1], s[2], ny * nx, &mut map);
    fill_rim(&mut rim, samples_of(samples));
    let g = grid(s, nx, ny);
    let t = rim_contact(g, &map, point(s, 8), float(s[10]), &rim, samples);
    Some(pattern(angle_of(t)) == s[12])
}
