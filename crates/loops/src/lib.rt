// Definitions and laws that every layer cites: see specs/ and proofs/. There is no code here.
#![tactic(auto)]
