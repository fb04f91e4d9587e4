// The answers of the joining calls in document 02's numbers: 0 for success or the number of the refusal, and the value that goes with
// it. Every answer has its numbers. The types stand in crates `joining` and `answers`, so the conversion is a function and no `From`.
#![tactic(auto)]

ghost use Rattle.std.specs.Prelude.{◌≡◌};
ghost use Rattle.bits.specs.Bytes.{low_bits};
ghost use Rattle.answers.specs.Numbers.{value_numbers};
ghost use Rattle.joining.specs.Answers.{number_of, answer_of};
ghost use Rattle.join_answers.specs.Numbers.{join_numbers};

use answers::{ValueNumbers, numbers};
use joining::JoinRefusal;

fn refused(refusal: JoinRefusal) -> ValueNumbers
    ensures { result ≡ value_numbers (number_of refusal) 0 }
{
    numbers(u32::from(refusal), 0)
}

// Two functions, since checks of 16 and of 32 bits differ in type.
pub fn joined_16(answer: Result<u16, JoinRefusal>) -> ValueNumbers
    ensures { result ≡ join_numbers (answer_of (low_bits 16) answer) }
{
    match answer {
        Ok(check) => numbers(0, usize::from(check)),
        Err(refusal) => refused(refusal),
    }
}

pub fn joined_32(answer: Result<u32, JoinRefusal>) -> ValueNumbers
    ensures { result ≡ join_numbers (answer_of (low_bits 32) answer) }
{
    match answer {
        Ok(check) => numbers(0, check as usize),
        Err(refusal) => refused(refusal),
    }
}
