// Reading a frame: questions 31 to 33 and 35 to 38, then the content handed out.
ghost use Rattle.std.specs.Prelude.{◌≡◌};
ghost use Rattle.bits.specs.Calls.{called};
ghost use Rattle.frame.specs.Answers.{of_read, read_call};

use crate::content::hand_out;
use frame::{FrameMethod, ReadRefusal, check_width};
use frame_framing::find_framing;

// Document 01, part 4: reads the frame that is the first `bits` bits of the bytes lent. The number of bits of its content.
pub fn read_frame(
    method: FrameMethod,
    bits: usize,
    lent: &[u8],
    out: &mut [u8],
) -> Result<usize, ReadRefusal>
    ensures { called (of_read result) out.new ≡ read_call method bits lent.now out.old }
{
    let framing = find_framing(method, bits, lent);
    let Ok(f) = framing else {
        return Err(framing.unwrap_err());
    };
    let end = f.end;
    if !f.right {
        return Err(ReadRefusal::WrongCheck);
    }
    let content = f.count - check_width(method);
    let needed = content.div_ceil(8);
    if needed > out.len() {
        return Err(ReadRefusal::OutputShort(needed));
    }
    hand_out(lent, end, content, &mut *out);
    Ok(content)
}
