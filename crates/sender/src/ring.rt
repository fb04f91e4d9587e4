// The ring of numbers and the ring of cells. No step divides.
ghost use Rattle.std.specs.Prelude.{◌≡◌, ◌+◌, ◌%◌, ◌^◌, ◌<◌, ◌≤◌};
ghost use Rattle.sender.specs.Ring as rule;

pub(crate) fn modulus(n: u8) -> u8
    requires { n ≤ 7 }
    ensures { result ≡ 2 ^ n }
{
    1u8 << n
}

// From x, one step on.
pub(crate) fn next(m: u8, x: u8) -> u8
    requires { x < m }
    ensures { result ≡ (x + 1) % m }
{
    if x + 1 == m { 0 } else { x + 1 }
}

// From x, d + 1 steps back.
pub(crate) fn back(m: u8, x: u8, d: u8) -> u8
    requires m_most { m ≤ 128 }
    requires x_below { x < m }
    requires d_below { d < m }
    ensures { result ≡ rule.back m x d }
{
    let ahead = m - 1 - d;
    if x + ahead < m {
        x + ahead
    } else {
        x + ahead - m
    }
}

// How many blocks were submitted after the one with this number.
pub(crate) fn submitted_after(n: u8, next: u8, number: u8) -> u8
    requires n_most { n ≤ 7 }
    requires next_below { next < 2 ^ n }
    requires number_below { number < 2 ^ n }
    ensures { result ≡ rule.back (2 ^ n) next number }
{
    back(modulus(n), next, number)
}
