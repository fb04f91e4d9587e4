// Putting bits into bytes, the low bit first. A full byte is stored; the bits of the byte that is not full are held.
ghost use Rattle.std.specs.Prelude.{◌≡◌, ◌+◌, ◌*◌, ◌<◌, ◌≤◌, length};
ghost use Rattle.bits.specs.Bytes.{low_bits, bits_of};
ghost use Rattle.frame.specs.Stuffing.{stuff};
ghost use Rattle.frame.specs.Frame.{flag};
ghost use Rattle.zero_insertion.specs.Insertion.{run_before};
ghost use Rattle.frame_writer.specs.Stepping.{pair, stepped};
ghost use Rattle.frame_writer.specs.Steps.{Opens, bits_before, stored, Puts};

use crate::{BitCount, BitWriter, Position};
use frame::FLAG;
use zero_insertion::{stuff_bits, stuff_byte};

impl BitWriter {
    // Behind the opening flag, which is the first byte of the output.
    pub(crate) fn open() -> BitWriter
        ensures { Opens result.count × (result.held ≡ 0) }
    {
        BitWriter {
            count: BitCount::open(),
            held: 0,
        }
    }

    // Puts a byte of content or check, with the zeros that go into it.
    fn put_byte(self, out: &mut [u8], byte: u8) -> BitWriter
        requires { bits_before self.count.at + length (stuff (run_before self.count.before) (low_bits 8 byte)) ≤ 8 * length out.old }
        ensures { Puts out.old self (low_bits 8 byte) out.new result }
    {
        let at = self.count.at;
        let sent = stuff_byte(self.count.before, byte);
        let held = self.held | (sent.bits << at.place);
        let next = at.index + 1;
        out[at.index] = (held & 255) as u8;
        let count = self.count.after_sent(sent.zeros, sent.before);
        if count.at.index == next {
            return BitWriter {
                count,
                held: held >> 8,
            };
        }
        out[next] = ((held >> 8) & 255) as u8;
        BitWriter {
            count,
            held: held >> 16,
        }
    }

    // Puts the lowest bits of a byte, fewer than eight, with the zeros that go into them. Apart from the loops over whole bytes, which are
    // slower where it stands between them.
    #[inline(never)]
    fn put_bits(self, out: &mut [u8], byte: u8, bits: u32) -> BitWriter
        requires { (bits < 8) × (bits_before self.count.at + length (stuff (run_before self.count.before) (low_bits bits byte)) ≤ 8 * length out.old) }
        ensures { Puts out.old self (low_bits bits byte) out.new result }
    {
        let at = self.count.at;
        let sent = stuff_bits(self.count.before, byte, bits);
        let held = self.held | (sent.bits << at.place);
        let count = self.count.after_bits(bits + sent.zeros, sent.before);
        if count.at.index == at.index {
            return BitWriter { count, held };
        }
        out[at.index] = (held & 255) as u8;
        let next = at.index + 1;
        let rest = held >> 8;
        if count.at.index == next {
            return BitWriter { count, held: rest };
        }
        out[next] = (rest & 255) as u8;
        BitWriter {
            count,
            held: rest >> 8,
        }
    }

    // Puts the last bits of a content. Most contents have none.
    pub(crate) fn put_last(self, out: &mut [u8], byte: u8, bits: u32) -> BitWriter
        requires { (bits < 8) × (bits_before self.count.at + length (stuff (run_before self.count.before) (low_bits bits byte)) ≤ 8 * length out.old) }
        ensures { Puts out.old self (low_bits bits byte) out.new result }
    {
        if bits == 0 {
            return self;
        }
        self.put_bits(&mut *out, byte, bits)
    }

    pub(crate) fn put_bytes(self, out: &mut [u8], bytes: &[u8]) -> BitWriter
        requires { bits_before self.count.at + length (stuff (run_before self.count.before) (bits_of bytes.now)) ≤ 8 * length out.old }
        ensures { Puts out.old self (bits_of bytes.now) out.new result }
    {
        let mut w = self;
        for byte in bytes {
            w = w.put_byte(&mut *out, *byte);
        }
        w
    }

    // The closing flag goes in as it is. The position behind it.
    pub(crate) fn put_flag(self, out: &mut [u8]) -> Position
        requires { bits_before self.count.at + 8 ≤ 8 * length out.old }
        ensures { (pair result ≡ stepped 8 (pair self.count.at)) × (out.new ≡ stored out.old self flag) }
    {
        let at = self.count.at;
        let held = self.held | ((FLAG as u32) << at.place);
        out[at.index] = (held & 255) as u8;
        if at.place == 0 {
            return at.after_byte();
        }
        out[at.index + 1] = ((held >> 8) & 255) as u8;
        at.after_byte()
    }
}
