// Where a helix is tried, and what is given up where there is no room for one (adaptive.rs of the Rust,
// `find_helix`'s search for a place and `flood_abandon`).
#![tactic(auto)]

pub mod flood;
pub mod place;
