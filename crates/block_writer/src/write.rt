// Writing a block: questions 58, 1, 4, 2, 3, 5, 6, then the line.
ghost use Rattle.std.specs.Prelude.{◌≡◌, length};
ghost use Rattle.bits.specs.Calls.{called};
ghost use Rattle.block.specs.Lent.{line_of_parts, write_parts};
ghost use Rattle.block.specs.Answers.{of_written, after_writing};
ghost use Rattle.block_writer.specs.Writing.{ask_room};

use crate::ShortParts;
use block::{Link, Parts, WriteRefusal, carries, is_seven};
use block_line::put_line;
use block_parts::ask_parts;

impl ShortParts<'_> {
    // Question 6, then the line.
    fn write_line(self, link: Link, out: &mut [u8]) -> Result<usize, WriteRefusal>
        ensures { called (of_written result) out.new ≡ after_writing (ask_room (line_of_parts link self.entry.parts.now) (length out.old)) out.old }
    {
        let needed = self.line_length(link);
        if needed > out.len() {
            return Err(WriteRefusal::OutputShort(needed));
        }
        put_line(link, self.parts, &mut *out);
        Ok(needed)
    }
}

// Document 01, part 3: writes one block.
pub fn write_block(link: Link, parts: &Parts<'_>, out: &mut [u8]) -> Result<usize, WriteRefusal>
    ensures { called (of_written result) out.new ≡ write_parts link parts.now out.old }
{
    if !carries(link.code, link.method) {
        return Err(WriteRefusal::CodeNotCarried);
    }
    ask_parts(link.code, is_seven(link.method), parts)?;
    let short = ShortParts { parts };
    short.write_line(link, &mut *out)
}
