// Contact: how many samples of a tool's rim are over stock, and the angle that they stand for. The
// directions of the samples are worked out once, into a lent table.
ghost use Rattle.std.specs.Prelude.{◌≡◌, ◌*◌, ◌≤◌, ◌<◌, length};
ghost use Rattle.raster.specs.Grid.{Over};
ghost use Rattle.raster.specs.Contact.{samples_of, direction_at, hits_of, rim_contact, angle_of, Rim, rimmed};

use super::grid::{Grid, at};
use geom::vec2::Vec2;
use numbers::cast::float_of;
use numbers::circle::TAU;

// Points of a tool's rim: how many were hit, being over stock, of how many sampled.
#[derive(Clone, Copy)]
pub struct Contact {
    pub hits: usize,
    pub samples: usize,
}

pub fn samples_of(n: usize) -> usize
    ensures { result ≡ samples_of n }
{
    if n < 8 { 8 } else { n }
}

// The direction of sample k of n.
pub fn direction_at(n: usize, k: usize) -> Vec2
    ensures { result ≡ direction_at n k }
{
    Vec2::from_angle(TAU * (float_of(k) + 0.5) / float_of(n))
}

// Fills the table of n samples: cosine and sine of each.
pub fn fill_rim(rim: &mut [f64], n: usize)
    requires { 2 * n ≤ length rim.old }
    ensures { (rim.new ≡ rimmed n rim.old) × Rim n rim.new }
{
    for k in 0..n {
        let u = direction_at(n, k);
        rim[2 * k] = u.x;
        rim[2 * k + 1] = u.y;
    }
}

// How many of n samples of the rim of radius r at c are over stock.
pub fn hits(g: Grid, map: &[u8], c: Vec2, r: f64, rim: &[f64], n: usize) -> usize
    requires over { Over g (length map.now) }
    requires rim { Rim n rim.now }
    ensures { result ≡ hits_of g map.now c r n }
{
    let mut h = 0;
    for sample in 0..n {
        let u = Vec2 {
            x: rim[2 * sample],
            y: rim[2 * sample + 1],
        };
        if at(g, map, c.add(u.scale(r))) {
            h += 1;
        }
    }
    h
}

// Contact of a tool of radius r at c. The table is of the samples, at least 8.
pub fn rim_contact(g: Grid, map: &[u8], c: Vec2, r: f64, rim: &[f64], samples: usize) -> Contact
    requires over { Over g (length map.now) }
    requires rim { Rim (samples_of samples) rim.now }
    ensures { result ≡ rim_contact g map.now c r samples }
{
    let n = samples_of(samples);
    Contact {
        hits: hits(g, map, c, r, rim, n),
        samples: n,
    }
}

// The angle of a contact: whoever needs it has it from here.
pub fn angle_of(t: Contact) -> f64
    ensures { result ≡ angle_of t }
{
    TAU * float_of(t.hits) / float_of(t.samples)
}
