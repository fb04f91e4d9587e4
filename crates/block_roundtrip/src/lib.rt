// A block written, read back and compared: `block_returns` joins the calls to the second property. It takes every input, and
// answers true wherever the line is written and the output holds what is read back, and else the refusal of the writer or of the
// reader, which then is 19. The lent line holds what was written, and what it held before where nothing was.
#![tactic(auto)]

ghost use Rattle.std.specs.Prelude.{◌≡◌};
ghost use Rattle.roundtrip.specs.Returns.{returned};
ghost use Rattle.block_roundtrip.specs.Returns.{of_block_return, returns_of_parts};

use crate::compare::same_block;
use block::{Link, Parts, ReadRefusal, WriteRefusal};
use block_reader::read_block;
use block_writer::write_block;
use roundtrip::RoundTripError;

mod compare;

// Writes a block into `line`, reads it back into `out`, and answers whether shape, end sign, header and text came back. The contract
// shuts out that others did.
pub fn block_returns(
    link: Link,
    parts: &Parts<'_>,
    line: &mut [u8],
    out: &mut [u8],
) -> Result<bool, RoundTripError<WriteRefusal, ReadRefusal>>
    ensures { returned (of_block_return result) line.new out.new ≡ returns_of_parts link parts.now line.old out.old }
{
    let n = write_block(link, parts, &mut *line).map_err(RoundTripError::NotWritten)?;
    let b = read_block(link, &line[..n], &mut *out).map_err(RoundTripError::NotRead)?;
    Ok(same_block(b, parts, out))
}
