// Contact: how many points of a tool's rim are over stock, and the angle that they stand for.
ghost use Rattle.std.specs.Prelude.{◌≡◌};
ghost use Rattle.pocket.specs.Answers.{of_number, of_rim};
ghost use Rattle.pocket.specs.Leaves.{contact_of, contact_angle_of};

use super::answers::{PocketNumber, PocketRim};
use super::ranges::{contact_fits, disk_fits, grid_fits};
use super::refusals::{Refusal, ask_map};
use geom::vec2::Vec2;
use raster::contact::{Contact, angle_of, fill_rim, rim_contact, samples_of};
use raster::grid::Grid;

// By samples of the rim, at least 8: their directions are worked out here.
pub fn contact(g: Grid, map: &[u8], c: Vec2, r: f64, samples: usize) -> Result<Contact, Refusal>
    ensures { result ≡ contact_of g map.now c r samples }
{
    let fit = grid_fits(g) & (disk_fits(c, r) & (samples <= 4096));
    ask_map(fit, g.nx, g.ny, map.len())?;
    let mut rim = [0.0; 8192];
    fill_rim(&mut rim, samples_of(samples));
    Ok(rim_contact(g, map, c, r, &rim, samples))
}

// The angle of a contact by its two numbers.
pub fn contact_angle(hits: usize, samples: usize) -> Result<f64, Refusal>
    ensures { result ≡ contact_angle_of hits samples }
{
    if contact_fits(hits, samples) {
        return Ok(angle_of(Contact { hits, samples }));
    }
    Err(Refusal::OutOfRange)
}

#[unsafe(no_mangle)]
pub extern "C" fn pocket_contact(
    grid: Grid,
    map: &[u8],
    center: Vec2,
    radius: f64,
    samples: usize,
) -> PocketRim
    ensures { result ≡ of_rim (contact_of grid map.now center radius samples) }
{
    PocketRim::from(contact(grid, map, center, radius, samples))
}

#[unsafe(no_mangle)]
pub extern "C" fn pocket_contact_angle(hits: usize, samples: usize) -> PocketNumber
    ensures { result ≡ of_number (contact_angle_of hits samples) }
{
    PocketNumber::from(contact_angle(hits, samples))
}
