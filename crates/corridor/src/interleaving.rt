// The calls of interleaving for C.
ghost use Rattle.std.specs.Prelude.{◌≡◌, []};
ghost use Rattle.interleave.specs.Answers.{verdict_of};
ghost use Rattle.corridor.specs.Calls.{called, verdict_number, interleave_call, deinterleave_call};

use interleave::{InterleaveRefusal, deinterleave, interleave};

fn answered(answer: Result<(), InterleaveRefusal>) -> u32
    ensures { result ≡ verdict_number (verdict_of answer) }
{
    match answer {
        Ok(()) => 0,
        Err(refusal) => u32::from(refusal),
    }
}

// Lays the text in rows of d and puts its columns one after the other.
#[unsafe(no_mangle)]
pub extern "C" fn corridor_interleave(d: usize, text: &[u8], out: &mut [u8]) -> u32
    ensures { called result [] out.new ≡ interleave_call d text.now out.old }
{
    answered(interleave(d, text, &mut *out))
}

// Puts the columns of a line back into rows of d.
#[unsafe(no_mangle)]
pub extern "C" fn corridor_deinterleave(d: usize, line: &[u8], out: &mut [u8]) -> u32
    ensures { called result [] out.new ≡ deinterleave_call d line.now out.old }
{
    answered(deinterleave(d, line, &mut *out))
}
