// The functions of the layers under C names, for the comparison with the Rust (rust/compare). What a
// station links is another crate.
#![tactic(auto)]

pub mod of_contours;
pub mod of_cutting;
pub mod of_distance;
pub mod of_field;
pub mod of_geom;
pub mod of_links;
pub mod of_numbers;
pub mod of_passes;
pub mod of_raster;
pub mod of_setup;
