// The first of document 01's questions to a leaf called alone that is answered no.
ghost use Rattle.std.specs.Prelude.{◌≡◌};
ghost use Rattle.pocket.specs.Refusals.{number_of, size_asked, map_asked};

use super::ranges::sides_fit;

// Questions 12 to 15: a number out of its range, loops that are no region, sides that are no raster's or a cell that is
// on none, and too little lent.
#[derive(Clone, Copy, PartialEq, Eq, Debug)]
pub enum Refusal {
    OutOfRange = 12,
    NoRegion = 13,
    NoRaster = 14,
    TooShort = 15,
}

impl From<Refusal> for u32 {
    ghost from_gives = { λ no n. n ≡ number_of no };

    fn from(no: Refusal) -> u32 {
        no as u32
    }
}

// The sides of a map, and how many bytes it has.
pub fn ask_size(nx: usize, ny: usize, long: usize) -> Result<(), Refusal>
    ensures { result ≡ size_asked nx ny long }
{
    if !sides_fit(nx, ny) {
        return Err(Refusal::NoRaster);
    }
    if long < ny * nx {
        return Err(Refusal::TooShort);
    }
    Ok(())
}

// Before them, whether all numbers are in range.
pub fn ask_map(numbers: bool, nx: usize, ny: usize, long: usize) -> Result<(), Refusal>
    ensures { result ≡ map_asked numbers nx ny long }
{
    if !numbers {
        return Err(Refusal::OutOfRange);
    }
    ask_size(nx, ny, long)
}
