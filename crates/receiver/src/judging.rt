// The number check behind the questions of the record, and the record that awaits a number.
ghost use Rattle.std.specs.Prelude.{◌≡◌, ◌≤◌, ◌^◌};
ghost use Rattle.number.specs.Number.{outcome};
ghost use Rattle.receiver.specs.Receiver as rule;
ghost use Rattle.receiver.specs.Answers.{judged_of};

use crate::{Judged, Receiver, ReceiverRefusal};
use number::{NumberRecord, receive};
use orders::is_method;

fn modulus(n: u8) -> u8
    requires { n ≤ 7 }
    ensures { result ≡ 2 ^ n }
{
    1u8 << n
}

fn record_right(receiver: Receiver) -> bool
    requires { receiver.n ≤ 7 }
    ensures { result ≡ rule.record_right receiver }
{
    is_method(receiver.method)
        & is_method(receiver.waiting)
        & ((receiver.waiting == 0)
            | ((receiver.number < modulus(receiver.n)) & (receiver.number != receiver.c)))
}

// 41, 51, 42 and 43.
pub(crate) fn judge(receiver: Receiver, number: u8) -> Result<Judged, ReceiverRefusal>
    ensures { judged_of receiver result ≡ outcome receiver.n receiver.w receiver.c (rule.verdict_on receiver number) }
{
    if receiver.n < 1 || 7 < receiver.n {
        return Err(ReceiverRefusal::Modulus);
    }
    if !record_right(receiver) {
        return Err(ReceiverRefusal::Record);
    }
    let held = NumberRecord {
        n: receiver.n,
        w: receiver.w,
        c: receiver.c,
    };
    let received = receive(held, number);
    match received.answer {
        Ok(verdict) => Ok(Judged {
            verdict,
            c: received.after.c,
        }),
        Err(refusal) => Err(ReceiverRefusal::from(refusal)),
    }
}

// The record that awaits c, while an order of the method `waiting` from `number` on waits, or none. The method changes once c is that number.
pub(crate) fn awaiting(receiver: Receiver, c: u8, waiting: u8, number: u8) -> Receiver
    ensures { result ≡ rule.awaiting receiver c waiting number }
{
    let mut after = receiver;
    after.c = c;
    after.waiting = waiting;
    after.number = number;
    if (waiting != 0) & (number == c) {
        after.method = waiting;
        after.waiting = 0;
        after.number = 0;
    }
    after
}
