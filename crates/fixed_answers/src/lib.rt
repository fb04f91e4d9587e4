// The answers of the calls on fixed blocks in document 02's numbers: 0 for success or the number of the refusal, and the value that
// goes with it. Every answer has its numbers. The types stand in crates `fixed_block` and `answers`, so the conversions are functions
// and no `From`.
#![tactic(auto)]

ghost use Rattle.std.specs.Prelude.{◌≡◌};
ghost use Rattle.fixed_block.specs.Answers.{written, read};
ghost use Rattle.fixed_answers.specs.Numbers.{fixed_numbers};

use answers::{ValueNumbers, numbers};
use fixed_block::{FixedReadRefusal, FixedWriteRefusal};

// A success has the bytes of the block.
pub fn fixed_written(answer: Result<usize, FixedWriteRefusal>) -> ValueNumbers
    ensures { result ≡ fixed_numbers (written answer) }
{
    match answer {
        Ok(length) => numbers(0, length),
        Err(FixedWriteRefusal::NoContent) => numbers(64, 0),
        Err(FixedWriteRefusal::TooLong) => numbers(65, 0),
        Err(FixedWriteRefusal::OutputShort(needed)) => numbers(6, needed),
    }
}

// A success has the bytes of the content.
pub fn fixed_read(answer: Result<usize, FixedReadRefusal>) -> ValueNumbers
    ensures { result ≡ fixed_numbers (read answer) }
{
    match answer {
        Ok(length) => numbers(0, length),
        Err(FixedReadRefusal::NoContent) => numbers(64, 0),
        Err(FixedReadRefusal::TooLong) => numbers(65, 0),
        Err(FixedReadRefusal::WrongCheck) => numbers(18, 0),
        Err(FixedReadRefusal::OutputShort(needed)) => numbers(19, needed),
    }
}
