// A region filled in: the cells of a map whose centres the region contains are set (raster.rs of the Rust, by
// `contains` where it counts crossings of all loops).
#![tactic(auto)]

mod centres;
mod columns;
mod crossings;
pub mod region;
mod rows;
