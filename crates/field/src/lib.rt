// The engagement field (`field` of the Rust): at each cell where the tool may go, the angle of its whole rim
// over stock.
#![tactic(auto)]

mod band;
mod gauge;
pub mod round;
mod rows;
mod squares;
