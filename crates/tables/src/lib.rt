// The byte tables of the generators of methods 5 and 6, for code that has its bytes one at a time: fetched once, and lent to
// `enter_byte` of crate `registers`. They stand alone because the check computes each of them whole from its generator, which no
// other crate's check is to pay for. Two functions and no trait of both: they share no step, only the form of a constant handed out.
#![tactic(auto)]

mod ccitt;
mod ieee;

pub use ccitt::ccitt16;
pub use ieee::ieee32;
