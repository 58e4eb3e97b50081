// Contact without a division a sample. At the centre of a cell: which cells the rim's samples lie in is worked out
// once, from the cell of the centre, and tested for every column and row. At any point: each sample lies in one of two
// columns and one of two rows, worked out and tested likewise, and a comparison with the first number of the second
// tells which. Blocks of samples are passed over where a tile tells that no stock is near.
#![tactic(auto)]

pub mod boxes;
pub mod contact;
pub mod hits;
pub mod offsets;
pub mod sums;
pub mod thresholds;
pub mod tiles;
