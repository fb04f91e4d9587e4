// The answers of the receiver's calls in the papers' numbers: 0 for success or the number of the refusal, and the values that go with it.
// Every answer has its numbers. The types stand in crates `receiver` and `block`, so each conversion is a function and no `From`.
#![tactic(auto)]

ghost use Rattle.std.specs.Prelude.{◌≡◌};
ghost use Rattle.receiver.specs.Answers.{number_of, order_answer, told_of};
ghost use Rattle.receiver_answers.specs.Numbers.{order_number, told_numbers};

use block_answers::block_read;
use receiver::{BlockRefusal, ReceiverRefusal, Told};

// Of a told block: its number, and 1 for new, 2 for a repeat, 3 for lost or 0 for a refusal, then what a new block holds as after reading
// one, or the refusal's place or needed bytes and zeros: six places, as C lends them.
#[derive(Clone, Copy)]
pub struct ToldNumbers {
    pub number: u32,
    pub values: [usize; 6],
}

fn refusal_number(refusal: ReceiverRefusal) -> u32
    ensures { result ≡ number_of refusal }
{
    match refusal {
        ReceiverRefusal::Modulus => 41,
        ReceiverRefusal::Record => 51,
        ReceiverRefusal::Awaited => 42,
        ReceiverRefusal::Received => 43,
        ReceiverRefusal::OrderWaits => 67,
    }
}

pub fn order_answered(answer: Result<(), ReceiverRefusal>) -> u32
    ensures { result ≡ order_number (order_answer answer) }
{
    match answer {
        Ok(()) => 0,
        Err(refusal) => refusal_number(refusal),
    }
}

pub fn block_told(answer: Result<Told, BlockRefusal>) -> ToldNumbers
    ensures { result ≡ told_numbers (told_of answer) }
{
    match answer {
        Ok(Told::New(block)) => {
            let read = block_read(Ok(block));
            let v = read.values;
            ToldNumbers {
                number: read.number,
                values: [1, v[0], v[1], v[2], v[3], v[4]],
            }
        }
        Ok(Told::Repeat) => ToldNumbers {
            number: 0,
            values: [2, 0, 0, 0, 0, 0],
        },
        Ok(Told::Lost) => ToldNumbers {
            number: 0,
            values: [3, 0, 0, 0, 0, 0],
        },
        Err(BlockRefusal::Receiver(refusal)) => ToldNumbers {
            number: refusal_number(refusal),
            values: [0; 6],
        },
        Err(BlockRefusal::Line(refusal)) => {
            let read = block_read(Err(refusal));
            let v = read.values;
            ToldNumbers {
                number: read.number,
                values: [0, v[0], 0, 0, 0, 0],
            }
        }
    }
}
