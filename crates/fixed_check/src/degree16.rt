// x^16 + x^15 + x^13 + x^11 + x^5 + x^3 + x + 1.
ghost use Rattle.std.specs.Prelude.{◌≡◌, List, Bool, length, ◌++◌};
ghost use Rattle.bits.specs.Strings.{same};
ghost use Rattle.bits.specs.Bytes.{low_bits, bits_of};
ghost use Rattle.cyclic.specs.Check.{check_bits, Constants};
ghost use Rattle.fixed_polynomials.specs.Polynomials.{fixed16, degree16};
ghost use Rattle.fixed_polynomials.proofs.Polynomials.{widths};

use crate::register::CheckRegister;
use cyclic::Cyclic;

// The register of the check. Bit 0 of a number is the highest power of x.
#[derive(Clone, Copy)]
pub struct Fixed16 {
    pub register: u16,
}

impl Fixed16 {
    pub const WIDTH: usize = 16;

    pub const POLYNOMIAL: u16 = 0xd415;

    pub const START: u16 = 0;

    // Of a block with its check, in bytes.
    pub const LIMIT: usize = 16;

    // The register after a block with the right check.
    pub const RESIDUE: u16 = 0x0621;

    // Whether the last bits of a block are the check of those before them.
    pub fn receives(block: &[u8]) -> bool
        ensures { (c s : List Bool) → bits_of block.now ≡ c ++ s → length s ≡ 16 → result ≡ same s (check_bits degree16 c) }
    {
        let after = Self::new().enter(block);
        after.register == Self::RESIDUE
    }
}

impl CheckRegister for Fixed16 {
    ghost generator = { fixed16 };

    ghost bits = { λ fixed. low_bits 16 fixed.register };

    // A bit of the quotient is the dividend's, plus those of the quotient 1, 3, 5 and 11 or more places before it. So in eight bits the
    // quotient is the dividend divided by 1 + u + u^3 + u^5, where u moves on by a place: times 1 + u + u^2 + u^4 + u^5.
    fn enter_byte(self, byte: u8) -> Self {
        let k = (self.register ^ (byte as u16)) & 255;
        let quotient = ((k ^ (k << 1)) ^ ((k << 2) ^ ((k << 4) ^ (k << 5)))) & 255;
        let low = ((quotient << 8) ^ (quotient << 7)) ^ ((quotient << 5) ^ (quotient << 3));
        let high = (quotient >> 3) ^ ((quotient >> 5) ^ (quotient >> 7));
        Self {
            register: (low ^ high) ^ (self.register >> 8),
        }
    }

    // By the quotient, as a byte. To divide by one plus places that u moves on by is to multiply by one plus them, by one plus twice
    // as many, four times as many and so on, as far as they stay within the 64 bits.
    fn enter_word(self, word: u64) -> Self {
        let t = (self.register as u64) ^ word;
        let a = ((t ^ (t << 1)) ^ ((t << 3) ^ (t << 5)))
            ^ (((t << 11) ^ (t << 13)) ^ ((t << 15) ^ (t << 16)));
        let b = ((a ^ (a << 2)) ^ ((a << 6) ^ (a << 10)))
            ^ (((a << 22) ^ (a << 26)) ^ ((a << 30) ^ (a << 32)));
        let c = ((b ^ (b << 4)) ^ ((b << 12) ^ (b << 20))) ^ (((b << 44) ^ (b << 52)) ^ (b << 60));
        let d = (c ^ (c << 8)) ^ ((c << 24) ^ (c << 40));
        let e = (d ^ (d << 16)) ^ (d << 48);
        let quotient = e ^ (e << 32);
        Self {
            register: ((((quotient >> 63) ^ (quotient >> 61))
                ^ ((quotient >> 59) ^ (quotient >> 53)))
                ^ (((quotient >> 51) ^ (quotient >> 49)) ^ (quotient >> 48))) as u16,
        }
    }
}

impl Cyclic for Fixed16 {
    type Number = u16;

    ghost method = { degree16 };

    ghost width = { 16 };

    ghost register_bits = { λ fixed. low_bits 16 fixed.register };

    ghost number_bits = { λ number. low_bits 16 number };

    ghost of_width = { widths.degree_16 };

    fn new() -> Self
        ensures { Constants degree16 result.register Fixed16.WIDTH Fixed16.POLYNOMIAL Fixed16.START Fixed16.LIMIT }
    {
        Self {
            register: Self::START,
        }
    }

    #[tactic(auto, unfolding(fixed_polynomials::specs::Polynomials::degree16))]
    fn enter(self, content: &[u8]) -> Self {
        self.enter_content(content)
    }

    fn check(self) -> u16 {
        self.register ^ u16::MAX
    }
}
