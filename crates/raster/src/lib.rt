// The stock map of one layer (raster.rs of the Rust): a Grid by value, and a lent map of one byte a
// cell, 1 where the cell is stock.
#![tactic(auto)]

pub mod clear;
pub mod contact;
pub mod disk;
pub mod grid;
pub mod log;
pub mod stock;
