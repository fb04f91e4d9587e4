// The generator x^16 + x^12 + x^5 + 1, of methods 3 and 5: how a byte, its lowest bits and a word enter its register, without a table,
// and how a word is folded. Every function takes every input, and its contract gives the register bit by bit, by the rule of
// crate `registers`; that of `enter_bits` speaks of eight bits at most.
#![tactic(auto)]

ghost use Rattle.std.specs.Prelude.{◌≡◌, ◌≤◌};
ghost use Rattle.bits.specs.Bytes.{low_bits};
ghost use Rattle.division.specs.Generators.{ccitt16};
ghost use Rattle.registers.specs.Register.{enter};

use folding::Generator;

pub struct Ccitt16;

impl Ccitt16 {
    // The k lowest bits of a byte, eight at most, entered alone: they meet as many bits of the register, which enter an empty one as the
    // last of a byte whose first bits are zeros, and the rest of the register moves down.
    pub fn enter_bits(register: u16, byte: u8, k: u32) -> u16
        ensures { k ≤ 8 → low_bits 16 result ≡ enter ccitt16 (low_bits 16 register) (low_bits k byte) }
    {
        let k = k & 15;
        let last = (((register ^ (byte as u16)) << 8) >> k) & 255;
        Self::enter_byte(last, 0) ^ (register >> k)
    }
}

impl Generator for Ccitt16 {
    type Register = u16;

    type Pending = [u64; 4];

    const FOLDED_FROM: usize = 64;

    const PENDING: usize = 32;

    ghost PENDING = { 32 };

    ghost generator = { ccitt16 };

    ghost register_bits = { λ register. low_bits 16 register };

    ghost pending_words = { λ pending. pending };

    fn empty() -> u16 {
        0
    }

    fn enter_byte(register: u16, byte: u8) -> u16 {
        let k = (register ^ (byte as u16)) & 255;
        let quotient = (k ^ (k << 4)) & 255;
        let remainder = ((quotient << 8) ^ (quotient << 3)) ^ (quotient >> 4);
        remainder ^ (register >> 8)
    }

    // A bit of the quotient is the dividend's, plus those of the quotient 4, 11 and 16 places before it. So the quotient is the
    // dividend divided by 1 + u, where u moves a word on by 4, 11 and 16 places and adds up; and it is the dividend times 1 + u,
    // 1 + u^2, 1 + u^4 and 1 + u^8, since u^16 moves on by 64 places or more.
    fn enter_word(register: u16, word: u64) -> u16 {
        let t = (register as u64) ^ word;
        let a = (t ^ (t << 4)) ^ ((t << 11) ^ (t << 16));
        let b = (a ^ (a << 8)) ^ ((a << 22) ^ (a << 32));
        let c = (b ^ (b << 16)) ^ (b << 44);
        let quotient = c ^ (c << 32);
        (((quotient >> 48) ^ (quotient >> 53)) ^ (quotient >> 60)) as u16
    }

    fn begin(register: u16) -> [u64; 4] {
        [register as u64, 0, 0, 0]
    }

    // Modulo the generator x^256 = x^192 + x^80 + 1, so a word is added to the word behind it, to the fourth behind it, and in
    // between 48 bits into the second.
    fn fold_word(pending: [u64; 4], word: u64) -> [u64; 4] {
        let t = pending[0] ^ word;
        [
            t ^ pending[1],
            (t << 48) ^ pending[2],
            (t >> 16) ^ pending[3],
            t,
        ]
    }

    fn next(pending: [u64; 4]) -> (u64, [u64; 4]) {
        (pending[0], [pending[1], pending[2], pending[3], 0])
    }
}
