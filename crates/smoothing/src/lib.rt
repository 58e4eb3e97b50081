// Smoothing of traced curves (`smooth` of adaptive.rs).
#![tactic(auto)]

pub mod smooth;
