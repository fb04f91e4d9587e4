// An order is told.
ghost use Rattle.std.specs.Prelude.{◌≡◌};
ghost use Rattle.receiver.specs.Receiver as rule;
ghost use Rattle.receiver.specs.Answers.{order_outcome};

use crate::judging::{awaiting, judge};
use crate::{OrderResult, Receiver, ReceiverRefusal};
use orders::{CyclicMethod, byte_of};

fn refused(receiver: Receiver, refusal: ReceiverRefusal) -> OrderResult
    ensures { order_outcome result ≡ order_outcome (record { answer = Err refusal; after = receiver }) }
{
    OrderResult {
        answer: Err(refusal),
        after: receiver,
    }
}

// Notes an order of another method, which goes from the block of this number on. Where that is the awaited block the method changes at once.
pub fn tell_order(receiver: Receiver, number: u8, method: CyclicMethod) -> OrderResult
    ensures { order_outcome result ≡ rule.telling_order receiver number method }
{
    match judge(receiver, number) {
        Ok(_) => {
            if receiver.waiting != 0 {
                return refused(receiver, ReceiverRefusal::OrderWaits);
            }
            OrderResult {
                answer: Ok(()),
                after: awaiting(receiver, receiver.c, byte_of(method), number),
            }
        }
        Err(refusal) => refused(receiver, refusal),
    }
}
