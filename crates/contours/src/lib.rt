// The curves where a field of the cells crosses a level (`contours` of adaptive.rs).
#![tactic(auto)]

mod chain;
mod edge;
mod march;
mod places;
mod quiet;
mod square;
mod tables;
pub mod trace;
