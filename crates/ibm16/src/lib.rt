// The generator x^16 + x^15 + x^2 + 1, of method 4: how a byte and a word enter its register, without a table, and how a word is
// folded. Every function takes every input, and its contract gives the register bit by bit, by the rule of crate `registers`.
#![tactic(auto)]

ghost use Rattle.std.specs.Prelude.{◌≡◌};
ghost use Rattle.bits.specs.Bytes.{low_bits};
ghost use Rattle.division.specs.Generators.{ibm16};

use folding::Generator;

pub struct Ibm16;

impl Generator for Ibm16 {
    type Register = u16;

    type Pending = [u64; 3];

    const FOLDED_FROM: usize = 48;

    const PENDING: usize = 24;

    ghost PENDING = { 24 };

    ghost generator = { ibm16 };

    ghost register_bits = { λ register. low_bits 16 register };

    ghost pending_words = { λ pending. pending };

    fn empty() -> u16 {
        0
    }

    fn enter_byte(register: u16, byte: u8) -> u16 {
        let k = (register ^ (byte as u16)) & 255;
        let a = k ^ (k << 1);
        let b = a ^ (a << 2);
        let quotient = (b ^ (b << 4)) & 255;
        let remainder = ((quotient << 8) ^ (quotient << 6)) ^ (quotient >> 7);
        remainder ^ (register >> 8)
    }

    // By its quotient, as for methods 3 and 5: u moves a word on by 1, 14 and 16 places and adds up; u^64 moves on by 64 places or
    // more.
    fn enter_word(register: u16, word: u64) -> u16 {
        let t = (register as u64) ^ word;
        let a = (t ^ (t << 1)) ^ ((t << 14) ^ (t << 16));
        let b = (a ^ (a << 2)) ^ ((a << 28) ^ (a << 32));
        let c = (b ^ (b << 4)) ^ (b << 56);
        let d = c ^ (c << 8);
        let e = d ^ (d << 16);
        let quotient = e ^ (e << 32);
        (((quotient >> 48) ^ (quotient >> 50)) ^ (quotient >> 63)) as u16
    }

    fn begin(register: u16) -> [u64; 3] {
        [register as u64, 0, 0]
    }

    // Modulo the generator x^184 = x^120 + x^72 + x^64 + x^8 + 1, so a word is added 8, 14, 15, 22 and 23 bytes further on.
    fn fold_word(pending: [u64; 3], word: u64) -> [u64; 3] {
        let t = pending[0] ^ word;
        let low = (t << 48) ^ (t << 56);
        [
            (t ^ low) ^ pending[1],
            ((t >> 16) ^ ((t >> 8) ^ low)) ^ pending[2],
            (t >> 16) ^ (t >> 8),
        ]
    }

    fn next(pending: [u64; 3]) -> (u64, [u64; 3]) {
        (pending[0], [pending[1], pending[2], 0])
    }
}
