// The column pass: how many rows away the nearest mark of the same column is.
ghost use Rattle.std.specs.Prelude.{◌≡◌, ◌+◌, ◌*◌, ◌≤◌, ◌<◌, length};
ghost use Rattle.distance.specs.Least.{MapSides};
ghost use Rattle.distance.specs.Column.{Down, Raised, from_above, from_below};

// Rows that no column has: it has no mark.
pub const NONE: u32 = 4096;

// The rows up to a mark at or above a cell, from those of the cell above it.
pub fn from_above(byte: u8, mark: u8, above: u32) -> u32
    ensures { result ≡ from_above byte mark above }
{
    if byte == mark {
        return 0;
    }
    if above < NONE {
        return above + 1;
    }
    NONE
}

// The rows to a mark at, above or below a cell, from those of it and of the cell below it.
pub fn from_below(here: u32, below: u32) -> u32
    ensures { result ≡ from_below here below }
{
    if below < here {
        return below + 1;
    }
    here
}

// The first row.
pub fn first(marks: &[u8], mark: u8, nx: usize, ny: usize, work: &mut [u32])
    requires map_sides { MapSides nx ny }
    requires nx_in_bounds { nx ≤ length marks.now }
    requires nx_in_bounds_2 { nx ≤ length work.old }
    ensures { Down mark marks.now nx nx work.old work.new }
{
    for (k, &byte) in marks[..nx].iter().enumerate() {
        work[k] = from_above(byte, mark, NONE);
    }
}

// The rows after it, each from the one above.
pub fn down(marks: &[u8], mark: u8, nx: usize, ny: usize, cells: usize, work: &mut [u32])
    requires cells_value { cells ≡ ny * nx }
    requires map_sides { MapSides nx ny }
    requires cells_in_bounds { cells ≤ length marks.now }
    requires cells_in_bounds_2 { cells ≤ length work.old }
    requires down { Down mark marks.now nx nx work.old work.old }
    ensures { Down mark marks.now nx cells work.old work.new }
{
    // Two places of one slice, by their numbers.
    for k in nx..cells {
        work[k] = from_above(marks[k], mark, work[k - nx]);
    }
}

// From the last row but one up, each from the one below.
pub fn up(nx: usize, ny: usize, cells: usize, work: &mut [u32])
    requires cells_value { cells ≡ ny * nx }
    requires map_sides { MapSides nx ny }
    requires cells_in_bounds { cells ≤ length work.old }
    ensures { Raised nx ny 0 work.old work.new }
{
    for k in (0..cells - nx).rev() {
        work[k] = from_below(work[k], work[k + nx]);
    }
}
