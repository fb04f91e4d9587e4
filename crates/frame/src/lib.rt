// Frames of methods 5 and 6 (003 par. 2.2; document 01, part 4): the types of the calls, the rules of writing and reading, and the
// numbers of a method, for both sides.
#![tactic(auto)]

// Methods 5 and 6: the checks of 16 and of 32 bits.
#[derive(Clone, Copy, Debug, PartialEq, Eq)]
pub enum FrameMethod {
    Cyclic16,
    Cyclic32,
}

// A place in a frame, in bits from 0.
#[derive(Clone, Copy, Debug, PartialEq, Eq)]
pub struct BitPlace(pub usize);

// Why a frame is not written.
#[derive(Clone, Copy, Debug, PartialEq, Eq)]
pub enum WriteRefusal {
    // 66: more bits claimed than lent
    BitsNotLent,
    // 21
    NoContent,
    // 22: more bits than the method's limit
    TooLong,
    // 23: the bytes needed
    OutputShort(usize),
}

// Why a frame is not read.
#[derive(Clone, Copy, Debug, PartialEq, Eq)]
pub enum ReadRefusal {
    // 31: more bits told than lent
    BitsNotLent,
    // 32
    NoFlags,
    // 33: the place of the bit after five ones
    ZeroMissing(BitPlace),
    // 35
    NoContent,
    // 36: more bits than the method's limit
    TooLong,
    // 37
    WrongCheck,
    // 38: the bytes needed
    OutputShort(usize),
}

mod numbers;

pub use numbers::{FLAG, check_width, limit, limit_bits};
