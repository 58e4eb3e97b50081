// The rounds of a plan (`plan` of the Rust), over a workspace that is set up.
#![tactic(auto)]

pub mod parts;
pub mod turns;
