// Parity (document 01, part 1, and question 12): a byte with the parity of the link, whether a byte has it, and the first byte of a
// line that has not. Each takes every input.
#![tactic(auto)]

ghost use Rattle.std.specs.Prelude.{◌≡◌};
ghost use Rattle.block.specs.Characters as rule;
ghost use Rattle.block.specs.Scan.{first_failing};

use block::Parity;
use runs::{ByteTest, run};

mod parity;

use parity::parity_right;
pub use parity::with_parity;

// The parity of the link.
#[derive(Clone, Copy)]
struct RightParity {
    parity: Parity,
}

impl ByteTest for RightParity {
    ghost passing = { λ test. rule.parity_right test.parity };

    fn passes(self, b: u8) -> bool {
        parity_right(self.parity, b)
    }
}

// The first place whose parity is wrong, or the length where none is.
pub fn first_wrong(p: Parity, line: &[u8]) -> usize
    ensures { result ≡ first_failing (rule.parity_right p) 0 line.now }
{
    run(RightParity { parity: p }, line)
}
