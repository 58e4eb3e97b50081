// Document 01's marked examples as one statement, specs/Table.antt, and its proof by computation. There is
// no code here.
#![tactic(auto)]
