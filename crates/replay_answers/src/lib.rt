// The refusals of replay in document 02's numbers, with the value that goes with each. Every refusal has its numbers. The types stand
// in crates `replay` and `answers`, so the conversion is a function and no `From`.
#![tactic(auto)]

ghost use Rattle.std.specs.Prelude.{◌≡◌};
ghost use Rattle.answers.specs.Numbers.{value_numbers};
ghost use Rattle.replay.specs.Answers.{number_of, value_of};

use answers::{ValueNumbers, numbers};
use replay::ReplayRefusal;
use sender_answers::refusal_numbers;

pub fn replay_refused(refusal: ReplayRefusal) -> ValueNumbers
    ensures { result ≡ value_numbers (number_of refusal) (value_of refusal) }
{
    match refusal {
        ReplayRefusal::Sender(refusal) => refusal_numbers(refusal),
        ReplayRefusal::TraceLength => numbers(61, 0),
        ReplayRefusal::UnknownEvent(index) => numbers(62, index),
    }
}
