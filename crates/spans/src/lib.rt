// The stock cleared from a crescent (clear_disk_after_logged of raster.rs), with the rows that have none left passed
// over by a table of the columns that a disk's rows have.
#![tactic(auto)]

mod columns;
pub mod crescent;
pub mod edges;
mod heights;
pub mod runs;
pub mod table;
