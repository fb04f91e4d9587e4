// Words and bytes entered into a register by their quotient, without a table: the quotient of a word is found by shifts and sums,
// and the register is what its product with the generator leaves. The laws of such maps of words, and the test of each generator's
// map at every single bit and every byte, on which crates `ccitt16`, `ibm16` and `ieee32` rest. The crate has no functions.
#![tactic(auto)]
