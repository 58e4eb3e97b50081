// The report of a finished plan (adaptive.rs of the Rust, `adaptive_clear`), and the lent slices zeroed
// behind what is used of them.
#![tactic(auto)]

pub mod clear;
mod kinds;
pub mod report;
mod standing;
