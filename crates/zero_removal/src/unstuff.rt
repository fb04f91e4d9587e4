// One byte of the line without its inserted zeros.
ghost use Rattle.std.specs.Prelude.{◌<◌};
ghost use Rattle.zero_removal.specs.Removal.{Receives};

use crate::{MissingZero, ReceivedByte};
use zero_insertion::fives;

// A byte as it is received behind five bits. In n ^ (n - 1) the bits up to the lowest one of n are ones.
pub fn unstuff_byte(before: u32, byte: u8) -> Result<ReceivedByte, MissingZero>
    ensures { before < 32 → Receives before byte result }
{
    let bits = byte as u32;
    let last = bits >> 3;
    let behind = fives(before | (bits << 5)) & 255;
    if behind == 0 {
        return Ok(ReceivedByte {
            bits,
            zeros: 0,
            last,
        });
    }
    let to_zero = behind ^ (behind - 1);
    let low = bits & (to_zero >> 1);
    if low != bits & to_zero {
        return Err(MissingZero(u32::trailing_zeros(behind)));
    }
    let high = bits ^ low;
    let more = fives(high) & 7;
    if more == 0 {
        return Ok(ReceivedByte {
            bits: low | (high >> 1),
            zeros: 1,
            last,
        });
    }
    let to_second = ((more ^ (more - 1)) << 5) | 31;
    let middle = high & (to_second >> 1);
    if middle != high & to_second {
        return Err(MissingZero(u32::trailing_zeros(more) + 5));
    }
    Ok(ReceivedByte {
        bits: (low | (middle >> 1)) | ((high ^ middle) >> 2),
        zeros: 2,
        last,
    })
}
