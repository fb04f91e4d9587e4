// The 32-bit generator of the standard divides no trinomial of a degree up to 91,638 (proofs/Trinomials.antt). No functions; a crate of
// its own, without edits, since it computes 91,639 powers of x and finds no two of them equal or 1 apart: that takes most of a minute.
#![tactic(auto)]
