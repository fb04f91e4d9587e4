// The kept bytes of a segment summed bit by bit.
ghost use Rattle.std.specs.Prelude.{◌≡◌, false, true};
ghost use Rattle.block.specs.Signs.{table_of};
ghost use Rattle.block.specs.Check.{xor_all};
ghost use Rattle.block_framing.specs.Framings.{kept_bytes};

use crate::kept::Keeping;
use block::Code;

// The kept bytes of a segment of methods 1, 2 and 7, summed bit by bit.
pub fn sum_kept(start: u8, code: Code, clear: bool, part: &[u8]) -> u8
    ensures { result ≡ xor_all start (kept_bytes (table_of code) clear true false part.now) }
{
    let mut sum = start;
    let mut keeping = Keeping::new(code, clear, true);
    for b in part {
        if keeping.keeps(*b) {
            sum ^= *b;
        }
    }
    sum
}
