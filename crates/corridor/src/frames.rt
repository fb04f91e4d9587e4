// The frame calls for C.
ghost use Rattle.std.specs.Prelude.{◌≡◌, [], ◌∷◌};
ghost use Rattle.corridor.specs.Calls.{called, read_frame_call, write_frame_call};

use crate::UNKNOWN_CODE;
use codes::frame_method_of;
use frame_answers::{frame_read, frame_written};
use frame_reader::read_frame;
use frame_writer::write_frame;

// Reads the frame that is the first `bits` bits of the bytes lent. The value is the content's number of bits, or the refusal's
// place in bits or needed bytes.
#[unsafe(no_mangle)]
pub extern "C" fn corridor_read_frame(
    method: u8,
    bits: usize,
    lent: &[u8],
    out: &mut [u8],
    value: &mut usize,
) -> u32
    ensures { called result (value.new ∷ []) out.new ≡ read_frame_call method bits lent.now out.old }
{
    *value = 0;
    let Some(m) = frame_method_of(method) else {
        return UNKNOWN_CODE;
    };
    let read = frame_read(read_frame(m, bits, lent, &mut *out));
    *value = read.value;
    read.number
}

// Writes one frame, whose content is the first `bits` bits of the bytes lent. The value is the frame's number of bits, or the needed
// bytes of a refusal.
#[unsafe(no_mangle)]
pub extern "C" fn corridor_write_frame(
    method: u8,
    bits: usize,
    lent: &[u8],
    out: &mut [u8],
    value: &mut usize,
) -> u32
    ensures { called result (value.new ∷ []) out.new ≡ write_frame_call method bits lent.now out.old }
{
    *value = 0;
    let Some(m) = frame_method_of(method) else {
        return UNKNOWN_CODE;
    };
    let written = frame_written(write_frame(m, bits, lent, &mut *out));
    *value = written.value;
    written.number
}
