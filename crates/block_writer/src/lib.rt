// Writing a block (document 01, part 3): `write_block` makes a line of header and text by the rules of crate block. It takes every
// input. A refusal carries document 01's number and leaves every byte of the output; a success changes only the bytes of the
// line.
#![tactic(auto)]

ghost use Rattle.std.specs.Prelude.{◌≤◌, length};
ghost use Rattle.block.specs.Limits.{counted_limit};

use block::Parts;

// The parts of a block that passed question 5, which leaves each of them at most 4,096 bytes.
#[derive(Clone, Copy)]
pub(crate) struct ShortParts<'a> {
    pub parts: &'a Parts<'a>,
    ghost header_small: { length parts.now.header.now ≤ counted_limit },
    ghost text_small: { length parts.now.text.now ≤ counted_limit },
}

mod length;
mod write;

pub use write::write_block;
