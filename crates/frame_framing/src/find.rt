// Questions 35 and 36, after those of the walk.
ghost use Rattle.std.specs.Prelude.{◌≡◌};
ghost use Rattle.frame.specs.Frame.{parameters_of};
ghost use Rattle.frame_framing.specs.Framing.{of_framing, framing_answer};
ghost use Rattle.frame_framing.specs.Steps.{Leaves, Asked};

use crate::Body;
use cyclic5::Cyclic5;
use cyclic6::Cyclic6;
use frame::{FrameMethod, ReadRefusal, check_width, limit_bits};
use frame_walk::{Walk, walk_frame};

// What content and check leave in the register where the check is right (003 par. 2.2.3).
fn residue(m: FrameMethod) -> u32
    ensures { Leaves (parameters_of m) result }
{
    match m {
        FrameMethod::Cyclic16 => Cyclic5::RESIDUE as u32,
        FrameMethod::Cyclic32 => Cyclic6::RESIDUE,
    }
}

// Questions 35 and 36, and whether the check is right.
fn ask_length(m: FrameMethod, w: Walk) -> Result<Body, ReadRefusal>
    ensures { Asked (parameters_of m) w result }
{
    let width = check_width(m);
    if w.count < 1 + width {
        return Err(ReadRefusal::NoContent);
    }
    if w.count > limit_bits(m) + width {
        return Err(ReadRefusal::TooLong);
    }
    Ok(Body {
        end: w.end,
        count: w.count,
        right: w.register == residue(m),
    })
}

// The framing of the first `told` bits of the bytes lent.
pub fn find_framing(m: FrameMethod, told: usize, lent: &[u8]) -> Result<Body, ReadRefusal>
    ensures { of_framing result ≡ framing_answer (parameters_of m) told lent.now }
{
    let walked = walk_frame(m, told, lent)?;
    ask_length(m, walked)
}
