// The pieces of a round cut one after another (adaptive.rs of the Rust, `plan`): the nearest to the tool first, and
// those of the ring in order.
#![tactic(auto)]

mod next;
pub mod round;
mod rows;
