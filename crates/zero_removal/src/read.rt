// The next byte of content and check, out of the bytes of the line.
ghost use Rattle.std.specs.Prelude.{◌≡◌, ℕ};
ghost use Rattle.zero_removal.specs.Removal.{Gives};
ghost use Rattle.zero_removal.specs.Reader.{ReaderFits, ReadsByte, first_reader};

use crate::{ByteRead, LineReader, ReceivedByte};

impl LineReader {
    // Behind the opening flag: it ends in a zero, and nothing is pending.
    pub fn new() -> LineReader
        ensures { result ≡ first_reader }
    {
        LineReader {
            before: 0,
            held: 0,
            pending: 0,
        }
    }
}

// The bits that a byte of the line gives as it is received, behind those that are pending.
pub fn read_bits(r: LineReader, got: ReceivedByte) -> ByteRead
    ensures { (byte : ℕ) → ReaderFits r → Gives r.before byte got → ReadsByte r byte result }
{
    let held = r.held | (got.bits << (r.pending % 32));
    if got.zeros <= r.pending {
        return ByteRead {
            byte: Some((held % 256) as u8),
            next: LineReader {
                before: got.last,
                held: held >> 8,
                pending: r.pending - got.zeros,
            },
        };
    }
    ByteRead {
        byte: None,
        next: LineReader {
            before: got.last,
            held,
            pending: r.pending % 32 + (8 - got.zeros % 8),
        },
    }
}
