// Cutting a piece (adaptive.rs of the Rust, `cut_piece` and `go_to`): its starts tried in turn, the way to
// the first pass that is worth it, and the pass kept in the chunk list.
#![tactic(auto)]

pub mod listing;
pub mod piece;
mod tries;
mod way;
