// Handing out the content, from between the flags.
ghost use Rattle.std.specs.Prelude.{◌≡◌, ◌+◌, ◌*◌, ◌<◌, ◌≤◌, length, take};
ghost use Rattle.std.proofs.lemmas.List.Edits.{sets};
ghost use Rattle.bits.specs.Bytes.{bits_of, bytes_for, pack_into, pack};
ghost use Rattle.frame_reader.specs.Steps.{data_between};

use zero_removal::{LineReader, read_bits, unstuff_byte};

// The first n bytes of content and check, at the start of the output. A byte at least stands behind them, so the line lacks no zero up
// to there.
fn hand_out_bytes(lent: &[u8], end: usize, n: usize, out: &mut [u8])
    requires { (0 < n) × (end ≤ 8 * length lent.now) × (8 * n + 8 ≤ length (data_between (bits_of lent.now) end)) × (n ≤ length out.old) }
    ensures { out.new ≡ sets out.old 0 (pack_into n (data_between (bits_of lent.now) end)) }
{
    let mut r = LineReader::new();
    // A byte of the line gives a byte or none, so the place in the output goes its own way.
    let mut i: usize = 0;
    for byte in &lent[1..end / 8] {
        if i == n {
            return;
        }
        let got = unstuff_byte(r.before, *byte).unwrap();
        let read = read_bits(r, got);
        r = read.next;
        if let Some(whole) = read.byte {
            out[i] = whole;
            i += 1;
        }
    }
}

// The content, at the start of the output. The bits of the check that its last byte was handed out with become zeros.
pub(crate) fn hand_out(lent: &[u8], end: usize, bits: usize, out: &mut [u8])
    requires { (0 < bits) × (end ≤ 8 * length lent.now) × (bits + 16 ≤ length (data_between (bits_of lent.now) end)) × (bytes_for bits ≤ length out.old) }
    ensures { out.new ≡ sets out.old 0 (pack (take bits (data_between (bits_of lent.now) end))) }
{
    let bytes = bits.div_ceil(8);
    hand_out_bytes(lent, end, bytes, &mut *out);
    let rest = bits % 8;
    if rest == 0 {
        return;
    }
    out[bytes - 1] = out[bytes - 1] & ((1u8 << rest) - 1);
}
