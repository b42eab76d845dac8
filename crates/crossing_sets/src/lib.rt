// Document 000, section 6.3: moments taken in groups, and how many of them can be chosen pairwise far enough apart.
// Definitions in specs/, the theorems in proofs/, no code.
#![tactic(auto)]
