// Reading a block: the questions up to 19, then header and text handed out.
ghost use Rattle.std.specs.Prelude.{◌≡◌};
ghost use Rattle.bits.specs.Calls.{called};
ghost use Rattle.block.specs.Answers.{of_read, read_call};
ghost use Rattle.block_framing.specs.Framings.{framed, framing_for};
ghost use Rattle.block_reader.specs.Counts.{held_by};

use crate::FramedLine;
use block::{Block, Link, ReadRefusal};
use block_framing::{Segments, find_framing};

// What an accepted block holds.
fn held(f: Segments) -> Block
    ensures { of_read (Ok result) ≡ held_by f }
{
    Block {
        shape: f.shape,
        end: f.end,
        header: f.header,
        text: f.text,
        counted: f.counted,
    }
}

// Questions 18, 54 and 19 of a framed line, then header and text handed out.
fn read_framed(link: Link, f: Segments, line: &[u8], out: &mut [u8]) -> Result<Block, ReadRefusal>
    requires { framed f ≡ framing_for link line.now }
    ensures { called (of_read result) out.new ≡ read_call link.code link.method link.parity line.now out.old }
{
    let framed = FramedLine {
        link,
        segments: f,
        line,
    };
    framed.ask_check()?;
    let needed = f.header + f.text;
    if needed > out.len() {
        return Err(ReadRefusal::OutputShort(needed));
    }
    framed.hand_out(&mut *out);
    let block = held(f);
    Ok(block)
}

// Document 01, part 3: reads one block.
pub fn read_block(link: Link, line: &[u8], out: &mut [u8]) -> Result<Block, ReadRefusal>
    ensures { called (of_read result) out.new ≡ read_call link.code link.method link.parity line.now out.old }
{
    let f = find_framing(link, line)?;
    read_framed(link, f, line, &mut *out)
}
