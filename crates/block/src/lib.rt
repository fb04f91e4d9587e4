// Blocks of methods 1 to 4 and 7 (003 par. 1.2, 1.3 and 2.1, 000; document 01, parts 1 and 3; document 02, cards 5 and 7): the types of
// the block calls, and in specs/ the rules of reading and writing, by which `read_block` (crate block_reader) and `write_block` (crate
// block_writer) answer. The functions here are what more than one of the crates above uses; each takes every input, and its contract
// gives the result by the rules.
#![tactic(auto)]

// Methods 1 to 4, and 7, the matrix with the diagonal character.
#[derive(Clone, Copy)]
pub enum Method {
    Parity,
    Matrix,
    Cyclic,
    CyclicAlternative,
    Diagonal,
}

// The link's parity: of the ones of a byte, in methods 1, 2 and 7.
#[derive(Clone, Copy)]
pub enum Parity {
    Even,
    Odd,
}

// The code of the characters. In DKOI the signs SYN and ETB have other values.
#[derive(Clone, Copy)]
pub enum Code {
    Koi7,
    Dkoi,
}

// What a link has agreed. Methods 3 and 4 do without the parity.
#[derive(Clone, Copy)]
pub struct Link {
    pub method: Method,
    pub parity: Parity,
    pub code: Code,
}

// Shapes 1 to 5. Clear text is document 01's word for transparent text.
#[derive(Clone, Copy, PartialEq, Eq)]
pub enum Shape {
    Header,
    Text,
    HeaderText,
    ClearText,
    HeaderClearText,
}

#[derive(Clone, Copy, PartialEq, Eq)]
pub enum EndSign {
    Etx,
    Etb,
    Us,
}

// What a block to be written holds.
#[derive(Clone, Copy)]
pub struct Parts<'a> {
    pub shape: Shape,
    pub end: EndSign,
    pub header: &'a [u8],
    pub text: &'a [u8],
}

// A place in a line or a part, in bytes from 0.
#[derive(Clone, Copy)]
pub struct BytePlace(pub usize);

// An accepted block: shape and end sign, the lengths of header and text, and how many bytes were counted.
#[derive(Clone, Copy)]
pub struct Block {
    pub shape: Shape,
    pub end: EndSign,
    pub header: usize,
    pub text: usize,
    pub counted: usize,
}

#[derive(Clone, Copy)]
pub enum ReadRefusal {
    // 58: DKOI under method 1, 2 or 7
    CodeNotCarried,
    // 11: more than 16,384 bytes
    TooLong,
    // 12: the first byte whose parity is wrong
    WrongParity(BytePlace),
    // 13
    NoStart,
    // 14: the byte, or the DLE before it
    OutOfPlace(BytePlace),
    // 15
    NoEnd,
    // 52: fewer bytes than the check has; the place after the end sign
    CheckShort(BytePlace),
    // 53: more bytes; the same place
    CheckLong(BytePlace),
    // 17: more than 4,096
    TooManyCounted,
    // 18: of method 7 the row check
    WrongCheck,
    // 54: the diagonal character of method 7
    WrongDiagonal,
    // 19: the bytes needed
    OutputShort(usize),
}

#[derive(Clone, Copy)]
pub enum WriteRefusal {
    // 58: DKOI under method 1, 2 or 7
    CodeNotCarried,
    // 1: the method does not carry the shape
    NotCarried,
    // 2: a reserved byte, or one from 80 on in methods 1, 2 and 7
    HeaderByte(BytePlace),
    // 3: the same in plain text
    TextByte(BytePlace),
    // 4: a part that the shape lacks is not empty
    PartNotEmpty,
    // 5: more than 4,096
    TooManyCounted,
    // 6: the bytes needed
    OutputShort(usize),
}

// What a byte of a line is. All but what is left out is counted.
#[derive(Clone, Copy)]
pub enum Mark {
    LeftOut,
    HeaderByte,
    TextByte,
    InnerStart,
    End,
}

// The field in which a byte stands. A field "Dle" is the one behind its DLE.
#[derive(Clone, Copy)]
pub enum Field {
    Start,
    StartDle,
    Header,
    HeaderDle,
    Text,
    Clear,
    ClearDle,
}

// What a byte is in its field: a mark, with the field after it; the end sign; no start; out of place, or the DLE before it is.
#[derive(Clone, Copy)]
pub enum Judged {
    Is(Mark, Field),
    Ends(EndSign),
    NoStart,
    OutOfPlace,
    DleOutOfPlace,
}

mod check;
mod limits;
mod shapes;
mod signs;

pub use check::{check_length, sum_slice};
pub use limits::{COUNTED_LIMIT, LINE_LIMIT};
pub use shapes::is_clear;
pub use signs::{
    DLE, ETB, ETX, GREATEST_SIGN, SOH, STX, SYN, US, carries, character, end_byte, in_koi7,
    is_seven, syn,
};
