// The planner: a job is judged, set up, planned in rounds, reported; what was lent is cleared up.
#![tactic(auto)]

pub mod outcome;
