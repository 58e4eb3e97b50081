// Planar geometry (geom.rs of the Rust): vectors, and loops and regions over lent vertices.
#![tactic(auto)]

pub mod apart;
pub mod points;
pub mod region;
pub mod segment;
pub mod vec2;
