// How many wrong bits a fixed block of GOST 17422-82 cannot hide, by its length (specs/Distances.antt). No functions; a crate of its own,
// since it computes the sums of all pairs of 128 powers of x.
#![tactic(auto)]
