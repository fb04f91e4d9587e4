// Questions 31 to 33.
ghost use Rattle.std.specs.Prelude.{◌≡◌};
ghost use Rattle.std.proofs.Math.Seq.{slice};
ghost use Rattle.bits.specs.Bytes.{bits_of};
ghost use Rattle.frame.specs.Stuffing.{unstuff};
ghost use Rattle.frame.specs.Frame.{parameters_of};
ghost use Rattle.frame_walk.specs.Walk.{of_walk, walk_zeros, walk_of};

use crate::{Line, Walk};
use cyclic::Cyclic;
use cyclic5::Cyclic5;
use cyclic6::Cyclic6;
use frame::{FrameMethod, ReadRefusal};
use line_ends::is_flag;
use tables::{ccitt16, ieee32};

impl Line<'_> {
    // Question 33, of the bits up to the closing flag.
    fn walk(self, m: FrameMethod) -> Result<Walk, ReadRefusal>
        ensures { of_walk result ≡ walk_zeros (parameters_of m) self.entry.end (unstuff 0 8 (slice 8 self.entry.end (bits_of self.entry.lent.now))) }
    {
        // Only what differs stands in the arms: the table and the register of the method.
        match m {
            FrameMethod::Cyclic16 => self.pass(&ccitt16(), Cyclic5::new().register as u32),
            FrameMethod::Cyclic32 => self.pass(&ieee32(), Cyclic6::new().register),
        }
    }
}

// The walk over the first `told` bits of the bytes lent.
pub fn walk_frame(m: FrameMethod, told: usize, lent: &[u8]) -> Result<Walk, ReadRefusal>
    ensures { of_walk result ≡ walk_of (parameters_of m) told lent.now }
{
    // 8 times the length may not fit.
    let bytes = told.div_ceil(8);
    if bytes > lent.len() {
        return Err(ReadRefusal::BitsNotLent);
    }
    if told < 16 {
        return Err(ReadRefusal::NoFlags);
    }
    let end = told - 8;
    if !is_flag(lent, 0) {
        return Err(ReadRefusal::NoFlags);
    }
    if !is_flag(lent, end) {
        return Err(ReadRefusal::NoFlags);
    }
    let line = Line { lent, end };
    line.walk(m)
}
