// Laws of IEEE 754's values that every layer above cites: see proofs/. There is no code here.
#![tactic(auto)]
