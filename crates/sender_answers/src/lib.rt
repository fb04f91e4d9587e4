// The answers of the sender's calls in document 02's numbers: 0 for success or the number of the refusal, and the value that goes with
// it. Every answer has its numbers. The types stand in crates `sender` and `answers`, so the conversion is a function and no `From`.
#![tactic(auto)]

ghost use Rattle.std.specs.Prelude.{◌≡◌};
ghost use Rattle.answers.specs.Numbers.{value_numbers, written_numbers};
ghost use Rattle.sender.specs.Answers.{answer_of, number_of, sent_of, value_of};
ghost use Rattle.sender_answers.specs.Numbers.{sender_numbers};

use answers::{ValueNumbers, numbers};
use sender::SenderRefusal;

pub fn refusal_numbers(refusal: SenderRefusal) -> ValueNumbers
    ensures { result ≡ value_numbers (number_of refusal) (value_of refusal) }
{
    match refusal {
        SenderRefusal::Modulus => numbers(41, 0),
        SenderRefusal::Record => numbers(51, 0),
        SenderRefusal::TooShort(needed) => numbers(6, needed),
        SenderRefusal::TooLong => numbers(57, 0),
        SenderRefusal::Full => numbers(55, 0),
        SenderRefusal::NotStored => numbers(56, 0),
        SenderRefusal::OrderPending => numbers(67, 0),
    }
}

// A success has a block's or an order's number, or how many blocks were freed.
pub fn sender_answered(answer: Result<u8, SenderRefusal>) -> ValueNumbers
    ensures { result ≡ sender_numbers (answer_of answer) }
{
    match answer {
        Ok(value) => numbers(0, value as usize),
        Err(refusal) => refusal_numbers(refusal),
    }
}

// A success has the length of the line.
pub fn send_answered(answer: Result<usize, SenderRefusal>) -> ValueNumbers
    ensures { result ≡ written_numbers (sent_of answer) }
{
    match answer {
        Ok(len) => numbers(0, len),
        Err(refusal) => refusal_numbers(refusal),
    }
}
