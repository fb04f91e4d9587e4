// Numbers of 32 bits as polynomials.
ghost use Rattle.bits.specs.Bytes.{low_bits};
ghost use Rattle.bits.proofs.Bytes.{length-low_bits};
ghost use Rattle.std.proofs.Common.{rules};

use crate::Polynomial;
use crate::spread::spread_two;

impl Polynomial for u32 {
    const WIDTH: usize = 32;

    ghost WIDTH = { 32 };

    ghost coefficients = { λ number. low_bits 32 number };

    ghost length_coefficients = { length-low_bits 32 };

    ghost wide = { Prim.search rules };

    fn zero() -> u32 {
        0
    }

    fn monomial(n: usize) -> u32 {
        if n < 32 { 1 << (31 - n) } else { 0 }
    }

    fn plus(self, other: u32) -> u32 {
        self ^ other
    }

    fn times_x(self, generator: u32) -> u32 {
        if self % 2 == 1 {
            return self / 2 ^ generator;
        }
        self / 2
    }

    fn is_set(self, place: usize) -> bool {
        if place < 32 {
            (self >> place) % 2 == 1
        } else {
            false
        }
    }

    fn spread(self) -> (u32, u32) {
        (spread_two(self % 65536), spread_two(self / 65536))
    }
}
