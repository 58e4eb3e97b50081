// A job as it comes in: its parameters, its regions, and the questions of document 01 that are asked before
// anything is planned.
#![tactic(auto)]

pub mod judge;
pub mod params;
pub mod questions;
pub mod shapes;
