// What planning keeps in its four lent slices between its steps: see specs/ and proofs/.
#![tactic(auto)]

pub mod places;
