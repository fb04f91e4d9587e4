// Accepted lines at the bounds of the third property: pairs that differ in just the least number of bits, or in a burst one bit
// longer than those that never occur, frames of one content bit among them (Sharp), and two full blocks of method 3 that differ in two
// bits 32,767 apart (FullBlocks): the owner's "exactly when" is met on real lines. No functions; a crate of its own, since it computes
// checks of 4,096 bytes.
#![tactic(auto)]
