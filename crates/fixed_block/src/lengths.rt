// The lengths of each polynomial. The three are a closed list, and each match shows its cases side by side.
ghost use Rattle.std.specs.Prelude.{◌≡◌};
ghost use Rattle.fixed_block.specs.Block.{parameters, check_length};

use crate::Polynomial;
use fixed_check::{Fixed8, Fixed16, Fixed24};

// The bytes of a check.
pub(crate) fn check_length(polynomial: Polynomial) -> usize
    ensures { result ≡ check_length (parameters polynomial) }
{
    match polynomial {
        Polynomial::Degree8 => Fixed8::WIDTH / 8,
        Polynomial::Degree16 => Fixed16::WIDTH / 8,
        Polynomial::Degree24 => Fixed24::WIDTH / 8,
    }
}

// The bytes of a block at most, its check included.
pub(crate) fn limit(polynomial: Polynomial) -> usize
    ensures { result ≡ (parameters polynomial).limit }
{
    match polynomial {
        Polynomial::Degree8 => Fixed8::LIMIT,
        Polynomial::Degree16 => Fixed16::LIMIT,
        Polynomial::Degree24 => Fixed24::LIMIT,
    }
}
