// Bit strings, bytes as bits in the order sent, and the differences of two strings or lines.
// The crate holds definitions (specs/) and laws (proofs/), and no functions.
#![tactic(auto)]
