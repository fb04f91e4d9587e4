// How many wrong bits a line cannot hide, by its length (specs/Distances.antt), beyond the owner's sentences. No functions; a crate of
// its own, since it rests on `trinomials` and computes frames of 91,640 checked bits.
#![tactic(auto)]
