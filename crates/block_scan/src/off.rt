// How far a byte is off the signs of KOI-7.
ghost use Rattle.std.specs.Prelude.{◌≡◌, ◌<◌};
ghost use Rattle.block.specs.Signs.{koi7, sign_of};
ghost use Rattle.block.specs.Write.{is_other};
ghost use Rattle.block_scan.specs.Tests.{OffSigns};

use block::{DLE, ETB, ETX, SOH, STX, SYN, US};

// 0 for a sign: how far a byte is off the nearest one, bit by bit. The compiler takes it for 16 bytes at once.
pub(crate) fn off_signs(c: u8) -> u8
    ensures { 0 < result → OffSigns c }
{
    let low = (c ^ SOH).min(c ^ STX).min(c ^ ETX).min(c ^ DLE);
    let high = (c ^ SYN).min(c ^ ETB).min(c ^ US);
    low.min(high)
}

// Whether a character is none of them.
pub(crate) fn is_no_sign(c: u8) -> bool
    ensures { result ≡ is_other (sign_of koi7 c) }
{
    let first = (c != SOH) & (c != STX) & (c != ETX) & (c != DLE);
    let last = (c != SYN) & (c != ETB) & (c != US);
    first & last
}
