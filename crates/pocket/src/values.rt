// The numbers: roots, narrowing, sine and cosine, and what a pass is to remove.
ghost use Rattle.std.specs.Prelude.{◌≡◌};
ghost use Rattle.pocket.specs.Answers.{of_count, of_number, of_single};
ghost use Rattle.pocket.specs.Leaves.{sqrt_of, narrowed_of, sine_of, cosine_of, wanted_cells_of};

use super::answers::{PocketCount, PocketNumber, PocketSingle};
use super::ranges::{angle_fits, cell_fits, root_fits};
use super::refusals::Refusal;
use numbers::order::is_finite;

pub fn sqrt(x: f64) -> Result<f64, Refusal>
    ensures { result ≡ sqrt_of x }
{
    if root_fits(x) {
        return Ok(numbers::root::sqrt(x));
    }
    Err(Refusal::OutOfRange)
}

pub fn narrow(x: f64) -> Result<f32, Refusal>
    ensures { result ≡ narrowed_of x }
{
    if is_finite(x) {
        return Ok(numbers::narrow::narrow(x));
    }
    Err(Refusal::OutOfRange)
}

pub fn sin(angle: f64) -> Result<f64, Refusal>
    ensures { result ≡ sine_of angle }
{
    if angle_fits(angle) {
        return Ok(numbers::circle::sin(angle));
    }
    Err(Refusal::OutOfRange)
}

pub fn cos(angle: f64) -> Result<f64, Refusal>
    ensures { result ≡ cosine_of angle }
{
    if angle_fits(angle) {
        return Ok(numbers::circle::cos(angle));
    }
    Err(Refusal::OutOfRange)
}

// How many cells a pass of such a length is to remove.
pub fn wanted(length: f64, cell: f64) -> Result<usize, Refusal>
    ensures { result ≡ wanted_cells_of length cell }
{
    if is_finite(length) & cell_fits(cell) {
        return Ok(passes::worth::wanted(length, cell));
    }
    Err(Refusal::OutOfRange)
}

#[unsafe(no_mangle)]
pub extern "C" fn pocket_sqrt(x: f64) -> PocketNumber
    ensures { result ≡ of_number (sqrt_of x) }
{
    PocketNumber::from(sqrt(x))
}

#[unsafe(no_mangle)]
pub extern "C" fn pocket_narrow(x: f64) -> PocketSingle
    ensures { result ≡ of_single (narrowed_of x) }
{
    PocketSingle::from(narrow(x))
}

#[unsafe(no_mangle)]
pub extern "C" fn pocket_sin(angle: f64) -> PocketNumber
    ensures { result ≡ of_number (sine_of angle) }
{
    PocketNumber::from(sin(angle))
}

#[unsafe(no_mangle)]
pub extern "C" fn pocket_cos(angle: f64) -> PocketNumber
    ensures { result ≡ of_number (cosine_of angle) }
{
    PocketNumber::from(cos(angle))
}

#[unsafe(no_mangle)]
pub extern "C" fn pocket_wanted(length: f64, cell: f64) -> PocketCount
    ensures { result ≡ of_count (wanted_cells_of length cell) }
{
    PocketCount::from(wanted(length, cell))
}
