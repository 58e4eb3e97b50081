// The shift of a pass at a sample of its guide: how far out to the free side the tool goes there.
ghost use Rattle.std.specs.Prelude.{◌≡◌};
ghost use Rattle.setup.specs.Place.{allowed_at};
ghost use Rattle.links.specs.Ground.{Equipped};
ghost use Rattle.passes.specs.Shifts.{max_shift, sat_add, moved_of, probe_of, try_of, ease_of, search_of};

use geom::vec2::Vec2;
use links::straight::Ground;
use raster::contact::{Contact, angle_of};
use setup::Setup;
use setup::place::bite_of;

// A place that the tool may go to, the angle of its contact there, and the place's shift.
#[derive(Clone, Copy)]
pub struct Shift {
    pub at: Vec2,
    pub angle: f64,
    pub shift: f64,
}

// What a search found, and the work so far.
#[derive(Clone, Copy)]
pub struct Search {
    pub found: Option<Shift>,
    pub work: usize,
}

pub fn max_shift(s: Setup) -> f64
    ensures { result ≡ max_shift s }
{
    let g = s.grid;
    bite_of(s) + 4.0 * g.cell
}

// A sum that stays at the end.
pub fn sat_add(a: usize, b: usize) -> usize
    ensures { result ≡ sat_add a b }
{
    if 18446744073709551615 - b < a {
        return 18446744073709551615;
    }
    a + b
}

fn moved(g: Vec2, left: Vec2, sh: f64) -> Vec2
    ensures { result ≡ moved_of g left sh }
{
    g.add(left.scale(sh))
}

// Contact, where the tool may be. It is sampled at the wider radius.
fn probe_at(ground: &Ground, q: Vec2) -> Option<Contact>
    requires { Equipped ground.now }
    ensures { let g = ground.now in result ≡ probe_of g.setup (allowed_at g.setup g.wall.now g.vs.now g.lens.now) g.map.now q }
{
    let s = &ground.setup;
    if setup::place::allowed_at(s, ground.wall, ground.vs, ground.lens, q) {
        let contact = setup::place::contact_wide(s, ground.map, ground.tiles, ground.rim, q);
        return Some(contact);
    }
    None
}

// One probe at a shift, taken where the angle of its contact is at most the limit.
fn try_shift(ground: &Ground, g: Vec2, left: Vec2, shift: f64, limit: f64, work: usize) -> Search
    requires { Equipped ground.now }
    ensures { let o = ground.now in result ≡ try_of o.setup (allowed_at o.setup o.wall.now o.vs.now o.lens.now) o.map.now g left shift limit work }
{
    let at = moved(g, left, shift);
    let p = probe_at(ground, at);
    let Some(contact) = p else {
        return Search { found: None, work };
    };
    let w = sat_add(work, ground.setup.samples);
    let angle = angle_of(contact);
    if angle <= limit {
        return Search {
            found: Some(Shift { at, angle, shift }),
            work: w,
        };
    }
    Search {
        found: None,
        work: w,
    }
}

// Back towards the guide, only where that is within the target.
fn ease(ground: &Ground, g: Vec2, left: Vec2, step: f64, shift: f64, work: usize) -> Search
    requires { Equipped ground.now }
    ensures { let o = ground.now in result ≡ ease_of o.setup (allowed_at o.setup o.wall.now o.vs.now o.lens.now) o.map.now g left step shift work }
{
    if shift > 0.0 {
        let sh = numbers::order::max(shift - step, 0.0);
        return try_shift(ground, g, left, sh, ground.setup.target, work);
    }
    Search { found: None, work }
}

// The shift at g: eased, held, or moved out by steps as far as needed, at most to `most`.
pub fn find_shift(
    ground: &Ground,
    g: Vec2,
    left: Vec2,
    step: f64,
    most: f64,
    shift: f64,
    work: usize,
) -> Search
    requires { Equipped ground.now }
    ensures { let o = ground.now in result ≡ search_of o.setup (allowed_at o.setup o.wall.now o.vs.now o.lens.now) o.map.now g left step most shift work }
{
    let eased = ease(ground, g, left, step, shift, work);
    if let Some(_) = eased.found {
        return eased;
    }
    let guard = ground.setup.guard;
    let mut w = eased.work;
    let mut sh = shift;
    // The shift grows at most 8,192 times.
    for _try in 0..8193u32 {
        if !(sh <= most + 1e-12) {
            break;
        }
        let t = try_shift(ground, g, left, sh, guard, w);
        if let Some(_) = t.found {
            return t;
        }
        w = t.work;
        sh = sh + step;
    }
    Search {
        found: None,
        work: w,
    }
}
