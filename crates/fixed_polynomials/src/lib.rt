// The polynomials of fixed blocks (GOST 17422-82, par. 2.5; document 02, card 11) and their checks (specs/), and what is proved of
// them (proofs/): widths, terms, the orders of x, and how a byte and a word enter. There is no code here.
#![tactic(auto)]
