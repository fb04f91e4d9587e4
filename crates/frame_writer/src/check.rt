// The bits of a content, and its check: the whole bytes enter at once, then the last bits alone.
ghost use Rattle.std.specs.Prelude.{◌≡◌, ◌*◌, ◌≤◌, length, take};
ghost use Rattle.bits.specs.Bytes.{bits_of, low_bits};
ghost use Rattle.cyclic.specs.Check.{check_bits, method5, method6};
ghost use Rattle.frame.proofs.Sizes.{content_limit};
ghost use Rattle.frame_writer.specs.Steps.{content_bits};

use crate::Content;
use cyclic::Cyclic;
use cyclic5::Cyclic5;
use cyclic6::Cyclic6;

impl Content<'_> {
    // The first bits of the bytes lent.
    pub(crate) fn new(lent: &[u8], bits: usize) -> Content
        requires { (bits ≤ 8 * length lent.now) × (bits ≤ 8 * content_limit) }
        ensures { content_bits result ≡ take bits (bits_of lent.now) }
    {
        let whole = bits >> 3;
        let rest = (bits & 7) as u32;
        let last = if rest == 0 { 0 } else { lent[whole] };
        Content {
            bytes: &lent[..whole],
            last,
            bits: rest,
        }
    }

    pub(crate) fn check_16(self) -> u16
        ensures { low_bits 16 result ≡ check_bits method5 (content_bits self.entry) }
    {
        let whole = Cyclic5::new().enter(self.bytes);
        Cyclic5::enter_bits(whole, self.last, self.bits).check()
    }

    pub(crate) fn check_32(self) -> u32
        ensures { low_bits 32 result ≡ check_bits method6 (content_bits self.entry) }
    {
        let whole = Cyclic6::new().enter(self.bytes);
        Cyclic6::enter_bits(whole, self.last, self.bits).check()
    }
}
