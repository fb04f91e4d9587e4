// The block calls for C.
ghost use Rattle.std.specs.Prelude.{◌≡◌, [], ◌∷◌};
ghost use Rattle.corridor.specs.Calls.{called, read_block_call, write_block_call};

use crate::UNKNOWN_CODE;
use block::Parts;
use block_answers::{block_read, block_written};
use block_reader::read_block;
use block_writer::write_block;
use codes::{format_of, link_of};

// Reads one block. After a success the answer is shape, end sign, lengths of header and text, and the counted number; after a
// refusal it is the refusal's place or needed bytes, then zeros.
#[unsafe(no_mangle)]
pub extern "C" fn corridor_read_block(
    method: u8,
    parity: u8,
    code: u8,
    line: &[u8],
    out: &mut [u8],
    answer: &mut [usize; 5],
) -> u32
    ensures { called result answer.new out.new ≡ read_block_call method parity code line.now out.old }
{
    *answer = [0; 5];
    let Some(link) = link_of(method, parity, code) else {
        return UNKNOWN_CODE;
    };
    let read = block_read(read_block(link, line, &mut *out));
    let values = read.values;
    *answer = values;
    read.number
}

// Writes one block. The value is the length of the line, or the refusal's place or needed bytes.
#[unsafe(no_mangle)]
pub extern "C" fn corridor_write_block(
    method: u8,
    parity: u8,
    code: u8,
    shape: u8,
    end_sign: u8,
    header: &[u8],
    text: &[u8],
    out: &mut [u8],
    value: &mut usize,
) -> u32
    ensures { called result (value.new ∷ []) out.new ≡ write_block_call method parity code shape end_sign header.now text.now out.old }
{
    *value = 0;
    let Some(link) = link_of(method, parity, code) else {
        return UNKNOWN_CODE;
    };
    let Some(format) = format_of(shape, end_sign) else {
        return UNKNOWN_CODE;
    };
    let parts = Parts {
        shape: format.shape,
        end: format.end,
        header,
        text,
    };
    let written = block_written(write_block(link, &parts, &mut *out));
    *value = written.value;
    written.number
}
