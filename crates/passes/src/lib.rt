// Cutting passes (adaptive.rs of the Rust): where a pass starts on its piece, the guide with its start bent
// out, the shift at each sample of the guide, the pass tried along it against the stock map, and whether
// that was worth it.
#![tactic(auto)]

pub mod attempt;
mod guide;
pub mod shifts;
pub mod start;
pub mod trial;
pub mod worth;
