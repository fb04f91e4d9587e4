// The generator of degree 32, of method 6: how a byte, its lowest bits and a word enter its register, without a table, and how a word is
// folded. Every function takes every input, and its contract gives the register bit by bit, by the rule of crate `registers`; that of
// `enter_bits` speaks of eight bits at most.
#![tactic(auto)]

ghost use Rattle.std.specs.Prelude.{◌≡◌, ◌≤◌};
ghost use Rattle.bits.specs.Bytes.{low_bits};
ghost use Rattle.division.specs.Generators.{ieee32};
ghost use Rattle.registers.specs.Register.{enter};
ghost use Rattle.quotient.specs.WordMaps.{number, times_one, times_two};

use folding::Generator;

// By the quotient, as for methods 3 and 5: u moves a word on by 6, 9, 10, 16, 20, 21, 22, 24, 25, 27, 28, 30, 31 and 32 places and
// adds up; u^16 moves on by 64 places or more. Ten of those places are neighbours and four lie ten apart, so two sums, `next` and
// `tenth`, serve all of them. The factors are two functions and none over a step, since a shift then stands as the number it is.

// Times 1 + u.
fn times_one(t: u64) -> u64
    ensures { result ≡ number times_one t }
{
    let next = t ^ (t << 1);
    let tenth = t ^ (t << 10);
    let low = ((tenth << 6) ^ (tenth << 20)) ^ ((next << 9) ^ (next << 21));
    let high = ((next << 24) ^ (next << 27)) ^ (next << 31);
    t ^ (low ^ high)
}

// Times 1 + u^2.
fn times_two(t: u64) -> u64
    ensures { result ≡ number times_two t }
{
    let next = t ^ (t << 2);
    let tenth = t ^ (t << 20);
    let low = ((tenth << 12) ^ (tenth << 40)) ^ ((next << 18) ^ (next << 42));
    let high = ((next << 48) ^ (next << 54)) ^ (next << 62);
    t ^ (low ^ high)
}

pub struct Ieee32;

impl Ieee32 {
    // The k lowest bits of a byte, eight at most, entered alone, as those of method 5.
    pub fn enter_bits(register: u32, byte: u8, k: u32) -> u32
        ensures { k ≤ 8 → low_bits 32 result ≡ enter ieee32 (low_bits 32 register) (low_bits k byte) }
    {
        let k = k & 15;
        let last = (((register ^ (byte as u32)) << 8) >> k) & 255;
        Self::enter_byte(last, 0) ^ (register >> k)
    }
}

impl Generator for Ieee32 {
    type Register = u32;

    type Pending = [u64; 5];

    const FOLDED_FROM: usize = 48;

    const PENDING: usize = 40;

    ghost PENDING = { 40 };

    ghost generator = { ieee32 };

    ghost register_bits = { λ register. low_bits 32 register };

    ghost pending_words = { λ pending. pending };

    fn empty() -> u32 {
        0
    }

    fn enter_byte(register: u32, byte: u8) -> u32 {
        let k = (register ^ (byte as u32)) & 255;
        let quotient = (k ^ (k << 6)) & 255;
        let next = quotient ^ (quotient << 1);
        let tenth = quotient ^ (quotient << 10);
        let low = ((next << 1) ^ (next << 13)) ^ ((next << 16) ^ (next << 19));
        let high = (next << 23) ^ ((tenth >> 2) ^ (tenth << 12));
        (low ^ high) ^ (register >> 8)
    }

    fn enter_word(register: u32, word: u64) -> u32 {
        let b = times_two(times_one((register as u64) ^ word));
        let c = (b ^ (b << 24)) ^ ((b << 36) ^ (b << 40));
        let quotient = c ^ (c << 48);
        let next = (quotient >> 32) ^ (quotient >> 33);
        let tenth = (quotient >> 34) ^ (quotient >> 44);
        let low = (next ^ (next >> 4)) ^ ((next >> 7) ^ (next >> 10));
        let high = (next >> 22) ^ (tenth ^ (tenth >> 14));
        (low ^ high) as u32
    }

    fn begin(register: u32) -> [u64; 5] {
        [register as u64, 0, 0, 0, 0]
    }

    // Modulo the generator x^300 = x^155 + x^117 + x^89 + 1, so a word is added 145, 183, 211 and 300 bits further on.
    fn fold_word(pending: [u64; 5], word: u64) -> [u64; 5] {
        let t = pending[0] ^ word;
        [
            pending[1],
            ((t << 17) ^ (t << 55)) ^ pending[2],
            ((t >> 47) ^ ((t >> 9) ^ (t << 19))) ^ pending[3],
            ((t >> 45) ^ (t << 44)) ^ pending[4],
            t >> 20,
        ]
    }

    fn next(pending: [u64; 5]) -> (u64, [u64; 5]) {
        (
            pending[0],
            [pending[1], pending[2], pending[3], pending[4], 0],
        )
    }
}
