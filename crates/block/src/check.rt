// What the checks of a read and of a written block share: the length of a check, and sums bit by bit.
ghost use Rattle.std.specs.Prelude.{◌≡◌};
ghost use Rattle.block.specs.Check.{check_length, xor_all};

use crate::Method;
use cyclic3::Cyclic3;
use cyclic4::Cyclic4;

// How many bytes of check follow the end sign.
pub fn check_length(m: Method) -> usize
    ensures { result ≡ check_length m }
{
    match m {
        Method::Parity => 0,
        Method::Matrix => 1,
        Method::Cyclic => Cyclic3::WIDTH / 8,
        Method::CyclicAlternative => Cyclic4::WIDTH / 8,
        Method::Diagonal => 2,
    }
}

// Every byte summed bit by bit.
pub fn sum_slice(start: u8, part: &[u8]) -> u8
    ensures { result ≡ xor_all start part.now }
{
    part.iter().fold(start, |sum, b| sum ^ *b)
}
