// A frame written, read back and compared: `frame_returns` joins the calls to the second property. It takes every input, and
// answers true wherever the frame is written and the output holds what is read back, and else the refusal of
// the writer or of the reader, which then is 38. The lent frame holds what was written, and what it held before where nothing was.
#![tactic(auto)]

ghost use Rattle.std.specs.Prelude.{◌≡◌};
ghost use Rattle.frame.specs.Frame.{parameters_of};
ghost use Rattle.roundtrip.specs.Returns.{returned};
ghost use Rattle.frame_roundtrip.specs.Returns.{of_frame_return, frame_returns};

use crate::compare::same_content;
use frame::{FrameMethod, ReadRefusal, WriteRefusal};
use frame_reader::read_frame;
use frame_writer::write_frame;
use roundtrip::RoundTripError;

mod compare;

// Writes a frame of the content's first `bits` bits into `frame`, reads it back into `out`, and answers whether the content came back.
// The contract shuts out that another one did.
pub fn frame_returns(
    method: FrameMethod,
    bits: usize,
    content: &[u8],
    frame: &mut [u8],
    out: &mut [u8],
) -> Result<bool, RoundTripError<WriteRefusal, ReadRefusal>>
    ensures { returned (of_frame_return result) frame.new out.new ≡ frame_returns (parameters_of method) bits content.now frame.old out.old }
{
    let told = write_frame(method, bits, content, &mut *frame).map_err(RoundTripError::NotWritten)?;
    let read = read_frame(method, told, frame, &mut *out).map_err(RoundTripError::NotRead)?;
    Ok(same_content(read, bits, content, out))
}
