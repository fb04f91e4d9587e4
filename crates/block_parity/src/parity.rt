// The parity of a byte.
ghost use Rattle.std.specs.Prelude.{◌≡◌};
ghost use Rattle.bits.specs.Strings.{parity};
ghost use Rattle.bits.specs.Bytes.{low_bits};
ghost use Rattle.block.specs.Characters as rule;

use block::Parity;

fn is_odd(p: Parity) -> bool
    ensures { result ≡ rule.is_odd p }
{
    matches!(p, Parity::Odd)
}

// Whether the ones of a byte are odd in number.
fn odd_ones(b: u8) -> bool
    ensures { result ≡ parity (low_bits 8 b) }
{
    let four = b ^ (b / 16);
    let two = four ^ (four / 4);
    let one = two ^ (two / 2);
    one % 2 == 1
}

#[tactic(auto, unfolding(block::specs::Characters::parity_right))]
pub(crate) fn parity_right(p: Parity, b: u8) -> bool
    ensures { result ≡ rule.parity_right p b }
{
    odd_ones(b) == is_odd(p)
}

pub fn with_parity(p: Parity, b: u8) -> u8
    ensures { result ≡ rule.with_parity p b }
{
    let low = b % 128;
    if odd_ones(low) == is_odd(p) {
        low
    } else {
        low + 128
    }
}
