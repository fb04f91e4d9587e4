// Writing a frame (document 01, part 4): `write_frame` puts a content and its check between two flags. It takes every input. A
// refusal carries document 01's number and leaves every byte of the output; a success changes only the bytes of the frame. Nothing
// is divided: the byte and the place of a bit are kept as a running pair (document 02, card 4).
#![tactic(auto)]

ghost use Rattle.std.specs.Prelude.{◌^◌, ◌<◌, ◌≤◌, length};
ghost use Rattle.frame.proofs.Sizes.{content_limit};

// Where a bit of a frame goes: its byte, and its place there.
#[derive(Clone, Copy)]
pub(crate) struct Position {
    pub index: usize,
    pub place: u32,
    ghost place_small: { place < 8 },
}

// The bits of a frame so far: where the next one goes, and the last four.
#[derive(Clone, Copy)]
pub(crate) struct BitCount {
    pub at: Position,
    pub before: u32,
    ghost before_small: { before < 16 },
}

// The bits of a frame as they are put: those of the byte that is not full are held.
#[derive(Clone, Copy)]
pub(crate) struct BitWriter {
    pub count: BitCount,
    pub held: u32,
    ghost held_small: { held < 2 ^ count.at.place },
}

// A content: its whole bytes, and the byte whose lowest bits, fewer than eight, are its last.
#[derive(Clone, Copy)]
pub(crate) struct Content<'a> {
    pub bytes: &'a [u8],
    pub last: u8,
    pub bits: u32,
    ghost bytes_small: { length bytes.now ≤ content_limit },
    ghost bits_few: { bits < 8 },
}

// Content and check of a frame, within what any method has.
#[derive(Clone, Copy)]
pub(crate) struct Checked<'a> {
    pub content: Content<'a>,
    pub check: &'a [u8],
    ghost check_small: { length check.now ≤ 4 },
}

mod check;
mod count;
mod pair;
mod put;
mod write;

pub use write::write_frame;
