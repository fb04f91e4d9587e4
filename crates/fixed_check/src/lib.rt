// The checks of fixed blocks (GOST 17422-82; document 02, card 11): a type for each polynomial, as methods 3 to 6 have, with the
// register of its check. The remainder is inverted and no ones start the division. Every function takes every input.
#![tactic(auto)]

mod degree16;
mod degree24;
mod degree8;
mod register;

pub use degree8::Fixed8;
pub use degree16::Fixed16;
pub use degree24::Fixed24;
