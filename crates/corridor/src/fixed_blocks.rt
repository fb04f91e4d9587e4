// The calls on fixed blocks for C.
ghost use Rattle.std.specs.Prelude.{◌≡◌, [], ◌∷◌};
ghost use Rattle.corridor.specs.Calls.{called, write_fixed_call, read_fixed_call};

use crate::UNKNOWN_CODE;
use codes::polynomial_of;
use fixed_answers::{fixed_read, fixed_written};
use fixed_block::{read_fixed, write_fixed};

// Writes one fixed block. The value is its length, or the needed bytes of a refusal.
#[unsafe(no_mangle)]
pub extern "C" fn corridor_write_fixed(
    degree: u8,
    content: &[u8],
    out: &mut [u8],
    value: &mut usize,
) -> u32
    ensures { called result (value.new ∷ []) out.new ≡ write_fixed_call degree content.now out.old }
{
    *value = 0;
    let Some(polynomial) = polynomial_of(degree) else {
        return UNKNOWN_CODE;
    };
    let written = fixed_written(write_fixed(polynomial, content, &mut *out));
    *value = written.value;
    written.number
}

// Reads one fixed block. The value is the length of its content, or the needed bytes of a refusal.
#[unsafe(no_mangle)]
pub extern "C" fn corridor_read_fixed(
    degree: u8,
    block: &[u8],
    out: &mut [u8],
    value: &mut usize,
) -> u32
    ensures { called result (value.new ∷ []) out.new ≡ read_fixed_call degree block.now out.old }
{
    *value = 0;
    let Some(polynomial) = polynomial_of(degree) else {
        return UNKNOWN_CODE;
    };
    let read = fixed_read(read_fixed(polynomial, block, &mut *out));
    *value = read.value;
    read.number
}
