// x^24 + x^22 + x^12 + x^10 + x^9 + x^2 + x + 1.
ghost use Rattle.std.specs.Prelude.{◌≡◌, List, Bool, length, ◌++◌};
ghost use Rattle.bits.specs.Strings.{same};
ghost use Rattle.bits.specs.Bytes.{low_bits, bits_of};
ghost use Rattle.cyclic.specs.Check.{check_bits, Constants};
ghost use Rattle.fixed_polynomials.specs.Polynomials.{fixed24, degree24};
ghost use Rattle.fixed_polynomials.proofs.Polynomials.{widths};

use crate::register::CheckRegister;
use cyclic::Cyclic;

// The register of the check. Bit 0 of a number is the highest power of x.
#[derive(Clone, Copy)]
pub struct Fixed24 {
    pub register: u32,
}

impl Fixed24 {
    pub const WIDTH: usize = 24;

    pub const POLYNOMIAL: u32 = 0xe06802;

    pub const START: u32 = 0;

    // Of a block with its check, in bytes.
    pub const LIMIT: usize = 256;

    // The register after a block with the right check.
    pub const RESIDUE: u32 = 0x95fc3c;

    // Whether the last bits of a block are the check of those before them.
    pub fn receives(block: &[u8]) -> bool
        ensures { (c s : List Bool) → bits_of block.now ≡ c ++ s → length s ≡ 24 → result ≡ same s (check_bits degree24 c) }
    {
        let after = Self::new().enter(block);
        (after.register & 0xffffff) == Self::RESIDUE
    }
}

impl CheckRegister for Fixed24 {
    ghost generator = { fixed24 };

    ghost bits = { λ fixed. low_bits 24 fixed.register };

    // A bit of the quotient is the dividend's, plus those of the quotient 2 and 12 or more places before it. So in eight bits the
    // quotient is the dividend divided by 1 + u^2, where u moves on by a place: times 1 + u^2 + u^4 + u^6.
    fn enter_byte(self, byte: u8) -> Self {
        let register = self.register & 0xffffff;
        let k = (register ^ (byte as u32)) & 255;
        let quotient = ((k ^ (k << 2)) ^ ((k << 4) ^ (k << 6))) & 255;
        let low = (quotient << 16) ^ ((quotient << 15) ^ (quotient << 14));
        let high = ((quotient << 7) ^ (quotient << 6)) ^ ((quotient << 4) ^ (quotient >> 6));
        Self {
            register: (low ^ high) ^ (register >> 8),
        }
    }

    // By the quotient, as a byte. To divide by one plus places that u moves on by is to multiply by one plus them, by one plus twice
    // as many, four times as many and so on, as far as they stay within the 64 bits.
    fn enter_word(self, word: u64) -> Self {
        let t = ((self.register & 0xffffff) as u64) ^ word;
        let a = ((t ^ (t << 2)) ^ ((t << 12) ^ (t << 14)))
            ^ (((t << 15) ^ (t << 22)) ^ ((t << 23) ^ (t << 24)));
        let b = ((a ^ (a << 4)) ^ ((a << 24) ^ (a << 28)))
            ^ (((a << 30) ^ (a << 44)) ^ ((a << 46) ^ (a << 48)));
        let c = ((b ^ (b << 8)) ^ (b << 48)) ^ ((b << 56) ^ (b << 60));
        let d = c ^ (c << 16);
        let quotient = d ^ (d << 32);
        Self {
            register: ((((quotient >> 62) ^ (quotient >> 52))
                ^ ((quotient >> 50) ^ (quotient >> 49)))
                ^ (((quotient >> 42) ^ (quotient >> 41)) ^ (quotient >> 40))) as u32,
        }
    }
}

impl Cyclic for Fixed24 {
    type Number = u32;

    ghost method = { degree24 };

    ghost width = { 24 };

    ghost register_bits = { λ fixed. low_bits 24 fixed.register };

    ghost number_bits = { λ number. low_bits 24 number };

    ghost of_width = { widths.degree_24 };

    fn new() -> Self
        ensures { Constants degree24 result.register Fixed24.WIDTH Fixed24.POLYNOMIAL Fixed24.START Fixed24.LIMIT }
    {
        Self {
            register: Self::START,
        }
    }

    #[tactic(auto, unfolding(fixed_polynomials::specs::Polynomials::degree24))]
    fn enter(self, content: &[u8]) -> Self {
        self.enter_content(content)
    }

    fn check(self) -> u32 {
        self.register ^ 0xffffff
    }
}
