// The pieces of a contour in lent slices: what is traced, smoothed and cut.
#![tactic(auto)]

pub mod row;
