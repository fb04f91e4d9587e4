// Reading a block (document 01, part 3): `read_block` judges a line by the rules of crate block and hands out header and text. It
// takes every input. A refusal carries document 01's number and leaves every byte of the output; a success changes only the
// bytes of header and text.
#![tactic(auto)]

ghost use Rattle.std.specs.Prelude.{length};
ghost use Rattle.block.specs.Signs.{table_of};
ghost use Rattle.block.specs.Characters.{is_seven};
ghost use Rattle.block_framing.specs.Framings.{Ordered};
ghost use Rattle.block_reader.specs.Counts.{CountsKept};

use block::Link;
use block_framing::Segments;

// A line of a link and the segments that were found in it.
#[derive(Clone, Copy)]
pub(crate) struct FramedLine<'a> {
    pub link: Link,
    pub segments: Segments,
    pub line: &'a [u8],
    ghost ordered: { Ordered segments (length line.now) },
    ghost counts_kept: { CountsKept (table_of link.code) (is_seven link.method) segments line.now },
}

mod check;
mod parts;
mod read;

pub use read::read_block;
