// The sender's calls for C.
ghost use Rattle.std.specs.Prelude.{◌≡◌};
ghost use Rattle.corridor.specs.Calls.{station_called, submit_call, acknowledge_call};

use sender::{Station, acknowledge_to, submit_to};
use sender_answers::sender_answered;

// Submits one block. The value is its number, or the needed bytes of a refusal.
#[unsafe(no_mangle)]
pub extern "C" fn corridor_submit(
    n: u8,
    w: u8,
    station: &mut Station,
    store: &mut [u8],
    block: &[u8],
    value: &mut usize,
) -> u32
    ensures { station_called result value.new station.new store.new ≡ submit_call n w station.old store.old block.now }
{
    let submitted = sender_answered(submit_to(n, w, &mut *station, &mut *store, block));
    *value = submitted.value;
    submitted.number
}

// Frees the named block and all before it. The value is how many, or the needed bytes of a refusal.
#[unsafe(no_mangle)]
pub extern "C" fn corridor_acknowledge(
    n: u8,
    w: u8,
    station: &mut Station,
    store: &[u8],
    number: u8,
    value: &mut usize,
) -> u32
    ensures { station_called result value.new station.new store.now ≡ acknowledge_call n w station.old store.now number }
{
    let acknowledged = sender_answered(acknowledge_to(n, w, &mut *station, store, number));
    *value = acknowledged.value;
    acknowledged.number
}
