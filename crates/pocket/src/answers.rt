// What a leaf answers, as C has it: `refused` is 0 where there is an answer, and all else is 0 where there is none.
ghost use Rattle.std.specs.Prelude.{◌≡◌};
ghost use Rattle.pocket.specs.Answers.{cell_by, count_by, done_by, number_by, numbered, of_cell, of_count, of_done, of_number, of_rim, of_single, rim_by, single_by};

use super::refusals::Refusal;
use raster::contact::Contact;

#[repr(C)]
#[derive(Clone, Copy)]
pub struct PocketCount {
    pub refused: u32,
    pub count: usize,
}

#[repr(C)]
#[derive(Clone, Copy)]
pub struct PocketNumber {
    pub refused: u32,
    pub value: f64,
}

#[repr(C)]
#[derive(Clone, Copy)]
pub struct PocketSingle {
    pub refused: u32,
    pub value: f32,
}

#[repr(C)]
#[derive(Clone, Copy)]
pub struct PocketRim {
    pub refused: u32,
    pub hits: usize,
    pub samples: usize,
}

#[repr(C)]
#[derive(Clone, Copy)]
pub struct PocketCell {
    pub refused: u32,
    pub found: bool,
    pub column: usize,
    pub row: usize,
}

// A leaf's refusal by its number.
fn numbered<T: Copy>(a: Result<T, Refusal>) -> Result<T, u32>
    ensures { result ≡ numbered a }
{
    match a {
        Ok(x) => Ok(x),
        Err(no) => Err(no.into()),
    }
}

// The functions from here on take any number for a refusal's.
pub fn of_count(a: Result<usize, u32>) -> PocketCount
    ensures { result ≡ count_by a }
{
    match a {
        Ok(count) => PocketCount { refused: 0, count },
        Err(refused) => PocketCount { refused, count: 0 },
    }
}

pub fn of_number(a: Result<f64, u32>) -> PocketNumber
    ensures { result ≡ number_by a }
{
    match a {
        Ok(value) => PocketNumber { refused: 0, value },
        Err(refused) => PocketNumber {
            refused,
            value: 0.0,
        },
    }
}

pub fn of_single(a: Result<f32, u32>) -> PocketSingle
    ensures { result ≡ single_by a }
{
    match a {
        Ok(value) => PocketSingle { refused: 0, value },
        Err(refused) => PocketSingle {
            refused,
            value: 0.0,
        },
    }
}

// Points of a tool's rim, hit and sampled.
pub fn of_rim(a: Result<Contact, u32>) -> PocketRim
    ensures { result ≡ rim_by a }
{
    match a {
        Ok(t) => PocketRim {
            refused: 0,
            hits: t.hits,
            samples: t.samples,
        },
        Err(refused) => PocketRim {
            refused,
            hits: 0,
            samples: 0,
        },
    }
}

// Column and row of a cell; none off the grid.
pub fn of_cell(a: Result<Option<(usize, usize)>, u32>) -> PocketCell
    ensures { result ≡ cell_by a }
{
    match a {
        Ok(cell) => match cell {
            Some((column, row)) => PocketCell {
                refused: 0,
                found: true,
                column,
                row,
            },
            None => PocketCell {
                refused: 0,
                found: false,
                column: 0,
                row: 0,
            },
        },
        Err(refused) => PocketCell {
            refused,
            found: false,
            column: 0,
            row: 0,
        },
    }
}

// The number of a refusal; 0 where there is none.
pub fn done_by(a: Result<(), u32>) -> u32
    ensures { result ≡ done_by a }
{
    match a {
        Ok(()) => 0,
        Err(no) => no,
    }
}

impl From<Result<usize, Refusal>> for PocketCount {
    ghost from_gives = { λ a r. r ≡ of_count a };

    fn from(a: Result<usize, Refusal>) -> PocketCount {
        of_count(numbered(a))
    }
}

impl From<Result<f64, Refusal>> for PocketNumber {
    ghost from_gives = { λ a r. r ≡ of_number a };

    fn from(a: Result<f64, Refusal>) -> PocketNumber {
        of_number(numbered(a))
    }
}

impl From<Result<f32, Refusal>> for PocketSingle {
    ghost from_gives = { λ a r. r ≡ of_single a };

    fn from(a: Result<f32, Refusal>) -> PocketSingle {
        of_single(numbered(a))
    }
}

impl From<Result<Contact, Refusal>> for PocketRim {
    ghost from_gives = { λ a r. r ≡ of_rim a };

    fn from(a: Result<Contact, Refusal>) -> PocketRim {
        of_rim(numbered(a))
    }
}

impl From<Result<Option<(usize, usize)>, Refusal>> for PocketCell {
    ghost from_gives = { λ a r. r ≡ of_cell a };

    fn from(a: Result<Option<(usize, usize)>, Refusal>) -> PocketCell {
        of_cell(numbered(a))
    }
}

// The number of a leaf's refusal; 0 where there is none.
pub fn of_done(a: Result<(), Refusal>) -> u32
    ensures { result ≡ of_done a }
{
    done_by(numbered(a))
}
