// The sums of method 7: those of the rows, and the register of the diagonals (`turned`, block/specs/Diagonals.antt), in one number of
// 16 bits that adds up over bytes; and the two check characters that it stands for. Each function takes every input.
#![tactic(auto)]

ghost use Rattle.std.specs.Prelude.{◌≡◌, false, true};
ghost use Rattle.block.specs.Signs.{table_of};
ghost use Rattle.block_framing.specs.Framings.{kept_bytes};
ghost use Rattle.block_diagonals.specs.Sums.{sums_after, characters};

use crate::turn::{turn_in, turn_slice};
use block::{Code, Parity, sum_slice};
use block_parity::with_parity;
use block_segments::Keeping;

mod turn;

// A slice added to both.
pub fn add_both(number: u16, part: &[u8]) -> u16
    ensures { result ≡ sums_after number part.now }
{
    let sums = sum_slice((number / 256) as u8, part);
    let register = turn_slice((number % 256) as u8, part);
    (sums as u16) * 256 + register as u16
}

// What a segment keeps, added to both, byte by byte.
pub fn add_both_kept(number: u16, code: Code, clear: bool, part: &[u8]) -> u16
    ensures { result ≡ sums_after number (kept_bytes (table_of code) clear true false part.now) }
{
    let mut sums = (number / 256) as u8;
    let mut register = (number % 256) as u8;
    let mut keeping = Keeping::new(code, clear, true);
    for b in part {
        if keeping.keeps(*b) {
            sums ^= *b;
            register = turn_in(register, *b);
        }
    }
    (sums as u16) * 256 + register as u16
}

// The row check, which enters the register last, and the diagonal character.
pub fn characters(p: Parity, number: u16) -> [u8; 2]
    ensures { result ≡ characters p number }
{
    let sums = (number / 256) as u8;
    let register = turn_in((number % 256) as u8, sums);
    [with_parity(p, sums), with_parity(p, register)]
}
