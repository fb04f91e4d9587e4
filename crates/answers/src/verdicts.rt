// The answers of the number check.
ghost use Rattle.std.specs.Prelude.{◌≡◌};
ghost use Rattle.number.specs.Answers.{verdict_of};
ghost use Rattle.answers.specs.Numbers.{verdict_numbers};

use crate::VerdictNumbers;
use number::{NumberRefusal, Verdict};

pub fn received(answer: Result<Verdict, NumberRefusal>) -> VerdictNumbers
    ensures { result ≡ verdict_numbers (verdict_of answer) }
{
    match answer {
        Ok(verdict) => VerdictNumbers {
            number: 0,
            verdict: u8::from(verdict),
        },
        Err(refusal) => VerdictNumbers {
            number: u32::from(refusal),
            verdict: 0,
        },
    }
}
