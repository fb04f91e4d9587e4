// Orders of another method, and the blocks sent and told under them, for C.
ghost use Rattle.std.specs.Prelude.{◌≡◌, [], ◌∷◌};
ghost use Rattle.corridor.specs.Calls.{called, station_called, receiver_called, order_call, send_call, tell_order_call, tell_block_call};

use crate::UNKNOWN_CODE;
use codes::cyclic_method_of;
use receiver::{Receiver, tell_block, tell_order};
use receiver_answers::{block_told, order_answered};
use sender::{Station, order, send};
use sender_answers::{send_answered, sender_answered};

// Orders another method for later submissions. The value is the number of the first of them.
#[unsafe(no_mangle)]
pub extern "C" fn corridor_order(
    n: u8,
    w: u8,
    station: &mut Station,
    method: u8,
    value: &mut usize,
) -> u32
    ensures { station_called result value.new station.new [] ≡ order_call n w station.old method }
{
    *value = 0;
    let Some(ordered) = cyclic_method_of(method) else {
        return UNKNOWN_CODE;
    };
    let changed = order(n, w, *station, ordered);
    *station = changed.after;
    let answered = sender_answered(changed.answer);
    *value = answered.value;
    answered.number
}

// Writes the line of a stored block. The value is its length, or the needed bytes of a refusal.
#[unsafe(no_mangle)]
pub extern "C" fn corridor_send(
    n: u8,
    w: u8,
    station: &Station,
    store: &[u8],
    number: u8,
    out: &mut [u8],
    value: &mut usize,
) -> u32
    ensures { called result (value.new ∷ []) out.new ≡ send_call n w station.now store.now number out.old }
{
    let sent = send_answered(send(n, w, *station, store, number, &mut *out));
    *value = sent.value;
    sent.number
}

// Tells the receiver an order with its number.
#[unsafe(no_mangle)]
pub extern "C" fn corridor_tell_order(receiver: &mut Receiver, number: u8, method: u8) -> u32
    ensures { receiver_called result [] receiver.new [] ≡ tell_order_call receiver.old number method }
{
    let Some(ordered) = cyclic_method_of(method) else {
        return UNKNOWN_CODE;
    };
    let told = tell_order(*receiver, number, ordered);
    *receiver = told.after;
    order_answered(told.answer)
}

// Tells the receiver a block's number beside its line. The answer is 1 for new, 2 for a repeat or 3 for lost, then what a new block holds as
// after reading one; after a refusal it is 0, the refusal's place or needed bytes, then zeros.
#[unsafe(no_mangle)]
pub extern "C" fn corridor_tell_block(
    receiver: &mut Receiver,
    number: u8,
    line: &[u8],
    out: &mut [u8],
    answer: &mut [usize; 6],
) -> u32
    ensures { receiver_called result answer.new receiver.new out.new ≡ tell_block_call receiver.old number line.now out.old }
{
    let told = tell_block(*receiver, number, line, &mut *out);
    *receiver = told.after;
    let numbers = block_told(told.answer);
    let values = numbers.values;
    *answer = values;
    numbers.number
}
