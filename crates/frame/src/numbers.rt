// The numbers of a method, from the type of its check.
ghost use Rattle.std.specs.Prelude.{◌≡◌};
ghost use Rattle.frame.specs.Frame.{parameters_of, width, limit_bits};

use crate::FrameMethod;
use cyclic5::Cyclic5;
use cyclic6::Cyclic6;

pub const FLAG: u8 = 0x7E;

// The bytes of content at most. The three functions here and the residue of frame_framing each name one constant of the method's type;
// a function from a method to the type itself would take a struct of all its constants.
#[tactic(auto, unfolding(cyclic::specs::Check::method5, cyclic::specs::Check::method6))]
pub fn limit(m: FrameMethod) -> usize
    ensures { result ≡ (parameters_of m).limit }
{
    match m {
        FrameMethod::Cyclic16 => Cyclic5::LIMIT,
        FrameMethod::Cyclic32 => Cyclic6::LIMIT,
    }
}

// The bits of content at most: the limit of the method's type is in bytes.
pub fn limit_bits(m: FrameMethod) -> usize
    ensures { result ≡ limit_bits (parameters_of m) }
{
    match m {
        FrameMethod::Cyclic16 => 8 * Cyclic5::LIMIT,
        FrameMethod::Cyclic32 => 8 * Cyclic6::LIMIT,
    }
}

// The bits of the check.
pub fn check_width(m: FrameMethod) -> usize
    ensures { result ≡ width (parameters_of m) }
{
    match m {
        FrameMethod::Cyclic16 => Cyclic5::WIDTH,
        FrameMethod::Cyclic32 => Cyclic6::WIDTH,
    }
}
