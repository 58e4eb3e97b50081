// The chunk list in lent slices. The theory of events, what the planner does and what the replay of its
// list then shows, is in specs/ and proofs/.
#![tactic(auto)]

pub mod list;
