// A sending and a receiving station of one link (document 02, card 14): where the receiver is told each order and each line at once and
// unaltered, and only taken blocks are acknowledged, every new block is taken with the bytes submitted. Definitions and laws; no functions.
#![tactic(auto)]
