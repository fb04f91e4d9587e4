// Methods 3 to 6.
ghost use Rattle.std.specs.Prelude.{◌≡◌};
ghost use Rattle.bits.specs.Bytes.{low_bits};
ghost use Rattle.cyclic.specs.Check.{method3, method4, method5, method6};
ghost use Rattle.joining.specs.Joining.{join};
ghost use Rattle.joining.specs.Answers.{answer_of};

use crate::{Join, JoinRefusal, Part, join_by};
use ccitt16::Ccitt16;
use cyclic3::Cyclic3;
use cyclic4::Cyclic4;
use cyclic5::Cyclic5;
use cyclic6::Cyclic6;
use ibm16::Ibm16;
use ieee32::Ieee32;

impl Join for Cyclic3 {
    fn join(first: Part<u16>, second: Part<u16>) -> Result<u16, JoinRefusal>
        ensures { answer_of (low_bits 16) result ≡ join method3 (low_bits 16 first.check) first.length (low_bits 16 second.check) second.length }
    {
        join_by::<Ccitt16>(Cyclic3::LIMIT, first, second)
    }
}

impl Join for Cyclic4 {
    fn join(first: Part<u16>, second: Part<u16>) -> Result<u16, JoinRefusal>
        ensures { answer_of (low_bits 16) result ≡ join method4 (low_bits 16 first.check) first.length (low_bits 16 second.check) second.length }
    {
        join_by::<Ibm16>(Cyclic4::LIMIT, first, second)
    }
}

impl Join for Cyclic5 {
    fn join(first: Part<u16>, second: Part<u16>) -> Result<u16, JoinRefusal>
        ensures { answer_of (low_bits 16) result ≡ join method5 (low_bits 16 first.check) first.length (low_bits 16 second.check) second.length }
    {
        join_by::<Ccitt16>(Cyclic5::LIMIT, first, second)
    }
}

impl Join for Cyclic6 {
    fn join(first: Part<u32>, second: Part<u32>) -> Result<u32, JoinRefusal>
        ensures { answer_of (low_bits 32) result ≡ join method6 (low_bits 32 first.check) first.length (low_bits 32 second.check) second.length }
    {
        join_by::<Ieee32>(Cyclic6::LIMIT, first, second)
    }
}
