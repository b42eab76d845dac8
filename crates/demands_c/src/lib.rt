// The reading room for C: what the entries for C tell, what their arrays stand for, and the numbers of
// include/chimenickel.h, as statements with their proofs. proofs/ has Entries, Pieces, Header and Request9; there is
// no code here.
#![tactic(auto)]
