// Helical entries (adaptive.rs of the Rust, `find_helix` and the last part of a round of `plan`): the place
// that is farthest from the walls, the widest helix that fits there, and its row in the chunk list.
#![tactic(auto)]

pub mod enter;
mod radius;
mod search;
