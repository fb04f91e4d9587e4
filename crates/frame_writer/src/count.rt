// Counting the bits of a frame, of which its bytes are known before it is written.
ghost use Rattle.std.specs.Prelude.{◌≡◌, ◌+◌, ◌*◌, ◌^◌, ◌<◌, ◌≤◌, length};
ghost use Rattle.bits.specs.Bytes.{bits_of, bytes_for, low_bits};
ghost use Rattle.frame.specs.Frame.{enclose};
ghost use Rattle.frame_writer.specs.Steps.{Opens, Follows, Counts, checked};

use crate::{BitCount, Checked, Position};
use zero_insertion::{stuff_bits, stuff_byte};

impl BitCount {
    // Behind the opening flag.
    pub(crate) fn open() -> BitCount
        ensures { Opens result }
    {
        BitCount {
            at: Position { index: 1, place: 0 },
            before: 0,
        }
    }

    // A byte with the zeros in it on, of which `before` are the last four bits.
    pub(crate) fn after_sent(self, zeros: u32, before: u32) -> BitCount
        requires { (zeros ≤ 2) × (before < 16) × (self.at.index + 2 < 2 ^ 64) }
        ensures { Follows self (8 + zeros) before result }
    {
        BitCount {
            at: self.at.after_sent(zeros),
            before,
        }
    }

    // The lowest bits of a byte with the zeros in them on, n bits in all, of which `before` are the last four.
    pub(crate) fn after_bits(self, n: u32, before: u32) -> BitCount
        requires { (n ≤ 9) × (before < 16) × (self.at.index + 2 < 2 ^ 64) }
        ensures { Follows self n before result }
    {
        BitCount {
            at: self.at.after_bits(n),
            before,
        }
    }

    // The lowest bits of a byte, fewer than eight, with the zeros that go into them.
    fn count_bits(self, byte: u8, bits: u32) -> BitCount
        requires { (bits < 8) × (self.at.index + 2 < 2 ^ 64) }
        ensures { Counts self (low_bits bits byte) result }
    {
        let sent = stuff_bits(self.before, byte, bits);
        self.after_bits(bits + sent.zeros, sent.before)
    }

    // A byte of content or check, with the zeros that go into it.
    fn count_byte(self, byte: u8) -> BitCount
        requires { self.at.index + 2 < 2 ^ 64 }
        ensures { Counts self (low_bits 8 byte) result }
    {
        let sent = stuff_byte(self.before, byte);
        self.after_sent(sent.zeros, sent.before)
    }

    // Bytes of content or check, with the zeros that go into them.
    fn count_bytes(self, bytes: &[u8]) -> BitCount
        requires { self.at.index + 2 * length bytes.now + 4 < 2 ^ 64 }
        ensures { Counts self (bits_of bytes.now) result }
    {
        let mut count = self;
        for byte in bytes {
            count = count.count_byte(*byte);
        }
        count
    }
}

impl Checked<'_> {
    // The bytes that content and check take between their flags, with the flags.
    pub(crate) fn frame_bytes(self) -> usize
        ensures { result ≡ bytes_for (length (enclose (checked self.entry))) }
    {
        let body = BitCount::open().count_bytes(self.content.bytes);
        let rest = body.count_bits(self.content.last, self.content.bits);
        let tail = rest.count_bytes(self.check);
        tail.at.after_byte().bytes()
    }
}
