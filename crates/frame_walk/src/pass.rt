// One pass over the line between the flags: question 33, how many bits content and check have, and the register of the check after
// them: their whole bytes, then the bits left over. The table is that of the method's generator, of 16 or of 32 bits.
ghost use Rattle.std.specs.Prelude.{◌≡◌, ◌+◌, ◌*◌, ◌/◌, ◌^◌, ◌<◌, ◌≤◌};
ghost use Rattle.std.proofs.Math.Seq.{slice};
ghost use Rattle.bits.specs.Bytes.{bits_of};
ghost use Rattle.frame.specs.Stuffing.{unstuff};
ghost use Rattle.frame_walk.specs.Walk.{of_walk};
ghost use Rattle.zero_removal.specs.Reader.{ReaderFits, left_at};
ghost use Rattle.frame_walk.specs.Steps.{passed, zero_missing_at};

use crate::{Line, Walk};
use frame::{BitPlace, ReadRefusal};
use line_ends::read_last;
use registers::{enter_bits, enter_byte};
use zero_removal::{LineReader, MissingZero, read_bits, unstuff_byte};

// Question 33: where in the frame a byte of the line lacks a zero.
fn zero_missing(index: usize, at: MissingZero) -> ReadRefusal
    requires { 8 * index + at.0 < 2 ^ 64 }
    ensures { result ≡ zero_missing_at (8 * index + at.0) }
{
    ReadRefusal::ZeroMissing(BitPlace(8 * index + at.0 as usize))
}

impl Line<'_> {
    // The bits behind the whole bytes of the line: fewer than two bytes of content and check. Apart from the loop over whole bytes, which
    // is slower where it stands behind it.
    #[inline(never)]
    fn last(
        self,
        table: &[u32; 256],
        register: u32,
        count: usize,
        r: LineReader,
    ) -> Result<Walk, ReadRefusal>
        requires { ReaderFits r × (count + 8 ≤ self.end) }
        ensures { of_walk result ≡ passed table.now self.entry.end register count (left_at (bits_of self.entry.lent.now) self.entry.end (self.entry.end / 8) r) }
    {
        let end = self.end;
        let index = end / 8;
        let left = read_last(r, self.lent[index], end % 8).map_err(|at| zero_missing(index, at))?;
        let count = count + left.bits as usize;
        let byte = (left.held & 255) as u8;
        if left.bits < 8 {
            return Ok(Walk {
                end,
                count,
                register: enter_bits(table, register, byte, left.bits),
            });
        }
        let whole = enter_byte(table, register, byte);
        Ok(Walk {
            end,
            count,
            register: enter_bits(table, whole, ((left.held >> 8) & 255) as u8, left.bits - 8),
        })
    }

    pub(crate) fn pass(self, table: &[u32; 256], start: u32) -> Result<Walk, ReadRefusal>
        ensures { of_walk result ≡ passed table.now self.entry.end start 0 (unstuff 0 8 (slice 8 self.entry.end (bits_of self.entry.lent.now))) }
    {
        let mut register = start;
        let mut count: usize = 0;
        let mut r = LineReader::new();
        // The bytes behind the opening flag, which is the first of the line.
        for (i, byte) in self.lent[1..self.end / 8].iter().enumerate() {
            let got = unstuff_byte(r.before, *byte).map_err(|at| zero_missing(i + 1, at))?;
            let read = read_bits(r, got);
            r = read.next;
            if let Some(whole) = read.byte {
                register = enter_byte(table, register, whole);
                count += 8;
            }
        }
        self.last(table, register, count, r)
    }
}
