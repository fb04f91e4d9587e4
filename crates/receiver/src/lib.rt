// A receiving station that is told orders and blocks by their numbers (document 02, card 14): `tell_order` notes an order of another
// method, and `tell_block` reads the line of a block that the number check calls new, under the method in force. Every input is taken.
// What does not pass a question is refused with document 01's number, and a refused call or line alters neither record nor output.
#![tactic(auto)]

ghost use Rattle.std.specs.Prelude.{◌≡◌};
ghost use Rattle.receiver.specs.Answers.{of_number_refusal};

use block::{Block, ReadRefusal};
use number::{NumberRefusal, Verdict};

// What the station knows: sequence numbers run modulo 2^n, w is the link's window, c the number that is awaited, and under which method
// blocks are read. Of an order that waits it knows the method, 0 where none waits, and the number of the first block under it. A fresh
// station has n, w and zeros: methods are kept by their numbers, and 0 is the method before any order.
#[derive(Clone, Copy)]
#[repr(C)]
pub struct Receiver {
    pub n: u8,
    pub w: u8,
    pub c: u8,
    pub method: u8,
    pub waiting: u8,
    pub number: u8,
}

#[derive(Clone, Copy)]
pub enum ReceiverRefusal {
    // 41: n is not from 1 to 7
    Modulus,
    // 51: w is not from 1 to the modulus less 1, or the record waits for c or for a number not below the modulus, or keeps no method
    Record,
    // 42: the awaited number is not below the modulus
    Awaited,
    // 43: the told number is not below the modulus
    Received,
    // 67: an order waits already
    OrderWaits,
}

impl From<NumberRefusal> for ReceiverRefusal {
    ghost from_gives = { λ refusal told. told ≡ of_number_refusal refusal };

    fn from(refusal: NumberRefusal) -> ReceiverRefusal {
        match refusal {
            NumberRefusal::Modulus => ReceiverRefusal::Modulus,
            NumberRefusal::Window => ReceiverRefusal::Record,
            NumberRefusal::Awaited => ReceiverRefusal::Awaited,
            NumberRefusal::Received => ReceiverRefusal::Received,
        }
    }
}

// What the number check says of a told number, and the awaited number after it.
#[derive(Clone, Copy)]
pub(crate) struct Judged {
    pub(crate) verdict: Verdict,
    pub(crate) c: u8,
}

// The answer to an order, and the record after it.
#[derive(Clone, Copy)]
pub struct OrderResult {
    pub answer: Result<(), ReceiverRefusal>,
    pub after: Receiver,
}

#[derive(Clone, Copy)]
pub enum Told {
    // A new block, whose line was taken.
    New(Block),
    Repeat,
    Lost,
}

#[derive(Clone, Copy)]
pub enum BlockRefusal {
    Receiver(ReceiverRefusal),
    // As `read_block` refuses the line.
    Line(ReadRefusal),
}

// The answer to a block, and the record after it.
#[derive(Clone, Copy)]
pub struct BlockResult {
    pub answer: Result<Told, BlockRefusal>,
    pub after: Receiver,
}

mod blocks;
mod judging;
mod orders_told;

pub use blocks::tell_block;
pub use orders_told::tell_order;
