// The check of a content in the order sent, and whether a block has its own.
ghost use Rattle.std.specs.Prelude.{◌≡◌, ◌≤◌, length, take};
ghost use Rattle.bits.specs.Bytes.{bits_of, pack};
ghost use Rattle.cyclic.specs.Check.{check_bits};
ghost use Rattle.fixed_block.specs.Block.{parameters, check_length, is_right};

use crate::Polynomial;
use cyclic::Cyclic;
use fixed_check::{Fixed8, Fixed16, Fixed24};
use registers::sent32;

// The first bytes are the check, as many as it has.
pub(crate) fn check_of(polynomial: Polynomial, content: &[u8]) -> [u8; 4]
    ensures { take (check_length (parameters polynomial)) result ≡ pack (check_bits (parameters polynomial) (bits_of content.now)) }
{
    match polynomial {
        Polynomial::Degree8 => sent32(Fixed8::check_of(content) as u32),
        Polynomial::Degree16 => sent32(Fixed16::check_of(content) as u32),
        Polynomial::Degree24 => sent32(Fixed24::check_of(content)),
    }
}

pub(crate) fn has_check(polynomial: Polynomial, block: &[u8]) -> bool
    requires long { check_length (parameters polynomial) ≤ length block.now }
    ensures { result ≡ is_right (parameters polynomial) block.now }
{
    match polynomial {
        Polynomial::Degree8 => Fixed8::receives(block),
        Polynomial::Degree16 => Fixed16::receives(block),
        Polynomial::Degree24 => Fixed24::receives(block),
    }
}
