// The reading room: the user's three demands as three statements, each with its proof from the crates below. proofs/
// has a file for each demand; there is no code here.
#![tactic(auto)]
