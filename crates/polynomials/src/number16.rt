// Numbers of 16 bits as polynomials.
ghost use Rattle.bits.specs.Bytes.{low_bits};
ghost use Rattle.bits.proofs.Bytes.{length-low_bits};
ghost use Rattle.std.proofs.Common.{rules};

use crate::Polynomial;
use crate::spread::spread_byte;

impl Polynomial for u16 {
    const WIDTH: usize = 16;

    ghost WIDTH = { 16 };

    ghost coefficients = { λ number. low_bits 16 number };

    ghost length_coefficients = { length-low_bits 16 };

    ghost wide = { Prim.search rules };

    fn zero() -> u16 {
        0
    }

    fn monomial(n: usize) -> u16 {
        if n < 16 { 1 << (15 - n) } else { 0 }
    }

    fn plus(self, other: u16) -> u16 {
        self ^ other
    }

    fn times_x(self, generator: u16) -> u16 {
        if self % 2 == 1 {
            return self / 2 ^ generator;
        }
        self / 2
    }

    fn is_set(self, place: usize) -> bool {
        if place < 16 {
            (self >> place) % 2 == 1
        } else {
            false
        }
    }

    fn spread(self) -> (u16, u16) {
        (spread_byte(self % 256), spread_byte(self / 256))
    }
}
