// The curves of a round: those of the engagement field, smoothed, and the ring along the boundary of where
// the tool may go, pulled to its allowed side.
#![tactic(auto)]

pub mod curves;
pub mod nudge;
pub mod ring;
pub mod round;
