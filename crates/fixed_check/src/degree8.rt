// x^8 + x^2 + x + 1.
ghost use Rattle.std.specs.Prelude.{◌≡◌, List, Bool, length, ◌++◌};
ghost use Rattle.bits.specs.Strings.{same};
ghost use Rattle.bits.specs.Bytes.{low_bits, bits_of};
ghost use Rattle.cyclic.specs.Check.{check_bits, Constants};
ghost use Rattle.fixed_polynomials.specs.Polynomials.{fixed8, degree8};
ghost use Rattle.fixed_polynomials.proofs.Polynomials.{widths};

use crate::register::CheckRegister;
use cyclic::Cyclic;

// The register of the check. Bit 0 of a number is the highest power of x.
#[derive(Clone, Copy)]
pub struct Fixed8 {
    pub register: u8,
}

impl Fixed8 {
    pub const WIDTH: usize = 8;

    pub const POLYNOMIAL: u8 = 0xe0;

    pub const START: u8 = 0;

    // Of a block with its check, in bytes.
    pub const LIMIT: usize = 16;

    // The register after a block with the right check.
    pub const RESIDUE: u8 = 0xcf;

    // Whether the last bits of a block are the check of those before them.
    pub fn receives(block: &[u8]) -> bool
        ensures { (c s : List Bool) → bits_of block.now ≡ c ++ s → length s ≡ 8 → result ≡ same s (check_bits degree8 c) }
    {
        let after = Self::new().enter(block);
        after.register == Self::RESIDUE
    }
}

impl CheckRegister for Fixed8 {
    ghost generator = { fixed8 };

    ghost bits = { λ fixed. low_bits 8 fixed.register };

    // A bit of the quotient is the dividend's, plus those of the quotient 6, 7 and 8 places before it.
    fn enter_byte(self, byte: u8) -> Self {
        let k = self.register ^ byte;
        let quotient = k ^ ((k << 6) ^ (k << 7));
        Self {
            register: quotient ^ ((quotient >> 1) ^ (quotient >> 2)),
        }
    }

    // By the quotient, as a byte. To divide by one plus places that u moves on by is to multiply by one plus them, by one plus twice
    // as many, four times as many and so on, as far as they stay within the 64 bits.
    fn enter_word(self, word: u64) -> Self {
        let t = (self.register as u64) ^ word;
        let a = (t ^ (t << 6)) ^ ((t << 7) ^ (t << 8));
        let b = (a ^ (a << 12)) ^ ((a << 14) ^ (a << 16));
        let c = (b ^ (b << 24)) ^ ((b << 28) ^ (b << 32));
        let quotient = (c ^ (c << 48)) ^ (c << 56);
        Self {
            register: (((quotient >> 58) ^ (quotient >> 57)) ^ (quotient >> 56)) as u8,
        }
    }
}

impl Cyclic for Fixed8 {
    type Number = u8;

    ghost method = { degree8 };

    ghost width = { 8 };

    ghost register_bits = { λ fixed. low_bits 8 fixed.register };

    ghost number_bits = { λ number. low_bits 8 number };

    ghost of_width = { widths.degree_8 };

    fn new() -> Self
        ensures { Constants degree8 result.register Fixed8.WIDTH Fixed8.POLYNOMIAL Fixed8.START Fixed8.LIMIT }
    {
        Self {
            register: Self::START,
        }
    }

    #[tactic(auto, unfolding(fixed_polynomials::specs::Polynomials::degree8))]
    fn enter(self, content: &[u8]) -> Self {
        self.enter_content(content)
    }

    fn check(self) -> u8 {
        self.register ^ u8::MAX
    }
}
