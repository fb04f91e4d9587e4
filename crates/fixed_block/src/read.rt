// Reading a fixed block: questions 64, 65, 18 and 19, then its content.
ghost use Rattle.std.specs.Prelude.{◌≡◌};
ghost use Rattle.bits.specs.Calls.{called};
ghost use Rattle.fixed_block.specs.Block.{read_call};
ghost use Rattle.fixed_block.specs.Answers.{read};

use crate::check::has_check;
use crate::lengths::{check_length, limit};
use crate::{FixedReadRefusal, Polynomial};

// The content of a block. The answer is its length.
pub fn read_fixed(
    polynomial: Polynomial,
    block: &[u8],
    out: &mut [u8],
) -> Result<usize, FixedReadRefusal>
    ensures { called (read result) out.new ≡ read_call polynomial block.now out.old }
{
    let k = check_length(polynomial);
    if block.len() <= k {
        return Err(FixedReadRefusal::NoContent);
    }
    if limit(polynomial) < block.len() {
        return Err(FixedReadRefusal::TooLong);
    }
    if !has_check(polynomial, block) {
        return Err(FixedReadRefusal::WrongCheck);
    }
    let n = block.len() - k;
    if out.len() < n {
        return Err(FixedReadRefusal::OutputShort(n));
    }
    out[..n].copy_from_slice(&block[..n]);
    Ok(n)
}
