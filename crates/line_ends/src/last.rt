// The last bits of the line before the closing flag.
ghost use Rattle.std.specs.Prelude.{◌≡◌, ℕ, ◌^◌, ◌<◌, ◌≤◌, Bool, true, List, ◌∷◌, ◌++◌};
ghost use Rattle.bits.specs.Strings.{zeros};
ghost use Rattle.bits.specs.Bytes.{low_bits};
ghost use Rattle.zero_removal.specs.Reader.{ReaderFits};
ghost use Rattle.line_ends.specs.Last.{Holds, ReadsLast};

use crate::LastRead;
use zero_removal::{LineReader, MissingZero, read_bits, unstuff_byte};

// What is held below the highest one of a number, and how many bits that is.
fn below_mark(marked: u32) -> LastRead
    ensures { (n : ℕ) (s : List Bool) (j : ℕ) → n ≤ 32 → marked < 2 ^ n → low_bits n marked ≡ s ++ (true ∷ zeros j) → Holds s result }
{
    let bits = 31 - u32::leading_zeros(marked) % 32;
    LastRead {
        bits,
        held: marked & ((1 << bits) - 1),
    }
}

// The first k bits of a byte, where the line ends behind them. They are read with a one behind them as a mark, and zeros behind that:
// the highest one of what is read tells how many bits there are.
pub fn read_last(r: LineReader, byte: u8, k: usize) -> Result<LastRead, MissingZero>
    ensures { ReaderFits r → k < 8 → ReadsLast r byte k result }
{
    let mark = 1u8 << (k % 8);
    let marked = byte % mark + mark;
    let got = unstuff_byte(r.before, marked)?;
    let read = read_bits(r, got);
    let held = read.next.held;
    let Some(whole) = read.byte else {
        return Ok(below_mark(held));
    };
    Ok(below_mark((whole as u32) | (held << 8)))
}
