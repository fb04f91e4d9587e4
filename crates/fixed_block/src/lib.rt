// Fixed blocks (GOST 17422-82; document 02, card 11): content bytes, then their check by one of three polynomials. `write_fixed` makes
// the block of a content, `read_fixed` judges a block and gives its content, both in a lent output. Every input is taken. What does
// not pass a question is refused with document 02's number and leaves every byte of the output; a success changes only the bytes of
// the block or of the content.
#![tactic(auto)]

// The polynomials, by their degrees.
#[derive(Clone, Copy)]
pub enum Polynomial {
    Degree8,
    Degree16,
    Degree24,
}

#[derive(Clone, Copy)]
pub enum FixedWriteRefusal {
    // 64: no content byte
    NoContent,
    // 65: the block would be over its length
    TooLong,
    // 6: the output is shorter than the block; the bytes needed
    OutputShort(usize),
}

#[derive(Clone, Copy)]
pub enum FixedReadRefusal {
    // 64: no content byte beside the check
    NoContent,
    // 65: the block is over its length
    TooLong,
    // 18: the check is not that of the content
    WrongCheck,
    // 19: the output is shorter than the content; the bytes needed
    OutputShort(usize),
}

mod check;
mod lengths;
mod read;
mod write;

pub use read::read_fixed;
pub use write::write_fixed;
