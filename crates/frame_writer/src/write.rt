// Writing a frame: questions 66 and 21 to 23, then its bits.
ghost use Rattle.std.specs.Prelude.{◌≡◌, ◌≤◌, length};
ghost use Rattle.bits.specs.Bytes.{bytes_for};
ghost use Rattle.bits.specs.Calls.{called};
ghost use Rattle.frame.specs.Frame.{enclose};
ghost use Rattle.frame.specs.Write.{ask_room, written};
ghost use Rattle.frame.specs.Answers.{of_written, after_writing, write_call};
ghost use Rattle.frame_writer.specs.Steps.{checked};

use crate::{BitWriter, Checked, Content};
use frame::{FLAG, FrameMethod, WriteRefusal, limit_bits};
use registers::{sent16, sent32};

impl Checked<'_> {
    // Puts the frame at the start of the output. Its bits.
    fn put(self, out: &mut [u8]) -> usize
        requires { bytes_for (length (enclose (checked self))) ≤ length out.old }
        ensures { called (of_written (Ok result)) out.new ≡ after_writing (written (enclose (checked self.entry))) out.old }
    {
        out[0] = FLAG;
        let body = BitWriter::open().put_bytes(&mut *out, self.content.bytes);
        let rest = body.put_last(&mut *out, self.content.last, self.content.bits);
        let tail = rest.put_bytes(&mut *out, self.check);
        tail.put_flag(&mut *out).bits()
    }

    // Question 23, then the frame. Five bits take six at most, so where the output has room for that no zero is counted.
    fn write(self, out: &mut [u8]) -> Result<usize, WriteRefusal>
        ensures { called (of_written result) out.new ≡ after_writing (ask_room (enclose (checked self.entry)) (length out.old)) out.old }
    {
        let bytes = self.content.bytes.len();
        let most = bytes + (bytes >> 2) + 16;
        if most <= out.len() {
            return Ok(self.put(&mut *out));
        }
        let needed = self.frame_bytes();
        if needed > out.len() {
            return Err(WriteRefusal::OutputShort(needed));
        }
        Ok(self.put(&mut *out))
    }
}

// Document 01, part 4: writes one frame, whose content is the first `bits` bits of the bytes lent. The number of its bits.
pub fn write_frame(
    method: FrameMethod,
    bits: usize,
    lent: &[u8],
    out: &mut [u8],
) -> Result<usize, WriteRefusal>
    ensures { called (of_written result) out.new ≡ write_call method bits lent.now out.old }
{
    // 8 times the length may not fit.
    if bits.div_ceil(8) > lent.len() {
        return Err(WriteRefusal::BitsNotLent);
    }
    if bits == 0 {
        return Err(WriteRefusal::NoContent);
    }
    if bits > limit_bits(method) {
        return Err(WriteRefusal::TooLong);
    }
    let content = Content::new(lent, bits);
    // The checks are arrays of two lengths. Each arm writes, since the borrow checker takes no slice, chosen here, of an array of one arm.
    match method {
        FrameMethod::Cyclic16 => Checked {
            content,
            check: &sent16(content.check_16()),
        }
        .write(&mut *out),
        FrameMethod::Cyclic32 => Checked {
            content,
            check: &sent32(content.check_32()),
        }
        .write(&mut *out),
    }
}
