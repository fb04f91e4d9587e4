// What was read beside what was written.
ghost use Rattle.std.specs.Prelude.{◌≡◌, ◌*◌, ◌<◌, ◌≤◌, length};
ghost use Rattle.std.specs.Bool.{Decides};
ghost use Rattle.bits.specs.Bytes.{low_bits, bytes_for};
ghost use Rattle.frame_roundtrip.specs.Returns.{ContentOf};

// Whether the k lowest bits of two bytes are the same, fewer than eight.
fn same_bits(a: u8, b: u8, k: usize) -> bool
    requires { k < 8 }
    ensures { Decides result (low_bits k a ≡ low_bits k b) }
{
    let mask = (1u8 << k) - 1;
    a & mask == b & mask
}

// Whether so many bits were read as the content has, and the output starts with the content.
pub(crate) fn same_content(read: usize, bits: usize, lent: &[u8], out: &[u8]) -> bool
    requires { (bits ≤ 8 * length lent.now) × (bytes_for bits ≤ length out.now) }
    ensures { Decides result (ContentOf bits lent.now read out.now) }
{
    if read != bits {
        return false;
    }
    let whole = bits / 8;
    if lent[..whole] != out[..whole] {
        return false;
    }
    let rest = bits % 8;
    if rest == 0 {
        return true;
    }
    same_bits(out[whole], lent[whole], rest)
}
