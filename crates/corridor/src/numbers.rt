// The number check for C.
ghost use Rattle.std.specs.Prelude.{◌≡◌, []};
ghost use Rattle.corridor.specs.Calls.{called, receive_call};

use answers::received;
use number::{NumberRecord, receive};

// Judges a received number by the record n, w and c. The answer is 1 new, 2 repeat, 3 lost or 0 for a refusal, then c afterwards.
#[unsafe(no_mangle)]
pub extern "C" fn corridor_receive(n: u8, w: u8, c: u8, number: u8, answer: &mut [u8; 2]) -> u32
    ensures { called result answer.new [] ≡ receive_call n w c number }
{
    let result = receive(NumberRecord { n, w, c }, number);
    let verdict = result.answer;
    let numbers = received(verdict);
    *answer = [numbers.verdict, result.after.c];
    numbers.number
}
