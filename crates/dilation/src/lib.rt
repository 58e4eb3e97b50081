// Which cells of a window a mark is nearer to than a bound, by whole numbers: the rows to the nearest mark of each
// column, then how many columns away such a mark still is within the bound.
#![tactic(auto)]

mod columns;
mod cover;
mod widths;
pub mod window;
