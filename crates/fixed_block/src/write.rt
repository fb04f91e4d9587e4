// Writing a fixed block: questions 64, 65 and 6, then its bytes.
ghost use Rattle.std.specs.Prelude.{◌≡◌, ◌≤◌, ◌+◌, ◌++◌, length, drop};
ghost use Rattle.bits.specs.Calls.{called};
ghost use Rattle.fixed_block.specs.Block.{parameters, check_length, block_of, write_call};
ghost use Rattle.fixed_block.specs.Answers.{written};

use crate::check::check_of;
use crate::lengths::{check_length, limit};
use crate::{FixedWriteRefusal, Polynomial};

// The block at the start of the output.
fn put_block(polynomial: Polynomial, content: &[u8], out: &mut [u8])
    requires room { length content.now + check_length (parameters polynomial) ≤ length out.old }
    ensures { out.new ≡ block_of (parameters polynomial) content.now ++ drop (length content.now + check_length (parameters polynomial)) out.old }
{
    let n = content.len();
    let k = check_length(polynomial);
    let sent = check_of(polynomial, content);
    out[..n].copy_from_slice(content);
    out[n..n + k].copy_from_slice(&sent[..k]);
}

// The block of a content. The answer is its length.
pub fn write_fixed(
    polynomial: Polynomial,
    content: &[u8],
    out: &mut [u8],
) -> Result<usize, FixedWriteRefusal>
    ensures { called (written result) out.new ≡ write_call polynomial content.now out.old }
{
    let k = check_length(polynomial);
    if content.len() < 1 {
        return Err(FixedWriteRefusal::NoContent);
    }
    if limit(polynomial) - k < content.len() {
        return Err(FixedWriteRefusal::TooLong);
    }
    let needed = content.len() + k;
    if out.len() < needed {
        return Err(FixedWriteRefusal::OutputShort(needed));
    }
    put_block(polynomial, content, &mut *out);
    Ok(needed)
}
