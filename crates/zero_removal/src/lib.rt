// Zero removal, a byte of the line at a time, by what stands before it (003 par. 2.2.5): `unstuff_byte` takes the inserted zeros out
// of a byte of the line, and `read_bits` gives the next byte of content and check, where it is whole. They take every input; for a
// reader that fits they give what the rule gives. They stand apart because in one they are not inlined.
#![tactic(auto)]

// A byte of the line as it is received: its bits without the inserted zeros, how many zeros those were, and its last five bits as they
// came. With the third field the struct is passed in registers, field by field; of two fields of 32 bits it would be passed as one number.
#[derive(Clone, Copy)]
pub struct ReceivedByte {
    pub bits: u32,
    pub zeros: u32,
    pub last: u32,
}

// The place in a byte of the line of a one where an inserted zero has to be.
#[derive(Clone, Copy)]
pub struct MissingZero(pub u32);

// The last five bits of the line, and the bits of content and check that make no byte yet: `pending` bits, held in a number. Whether
// they fit is no ghost field, which would ask more of the callers of `read_bits` and `read_last`: those take every input.
#[derive(Clone, Copy)]
pub struct LineReader {
    pub before: u32,
    pub held: u32,
    pub pending: u32,
}

// The byte of content or check that a byte of the line makes whole, where it does, and the reader after it.
#[derive(Clone, Copy)]
pub struct ByteRead {
    pub byte: Option<u8>,
    pub next: LineReader,
}

mod read;
mod unstuff;

pub use read::read_bits;
pub use unstuff::unstuff_byte;
