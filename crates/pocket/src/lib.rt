// What a station links (c/pocket.h): the planner, and document 01's public leaves called alone, under C names. Nothing
// is required of a caller; whatever is unfit is refused by its number.
#![tactic(auto)]

pub mod adaptive;
pub mod answers;
pub mod far;
pub mod logs;
pub mod maps;
pub mod places;
mod ranges;
pub mod refusals;
pub mod rim;
pub mod values;
