// Bits with a zero ahead of each.
ghost use Rattle.std.specs.Prelude.{◌≡◌, ◌<◌};
ghost use Rattle.bits.specs.Bytes.{low_bits};
ghost use Rattle.polynomials.specs.Product.{spread};

// Of a byte: its halves, then pairs, then single bits are moved apart.
pub(crate) fn spread_byte(byte: u16) -> u16
    requires { byte < 256 }
    ensures { low_bits 16 result ≡ spread (low_bits 8 byte) }
{
    let halves = (byte ^ (byte << 4)) & 0x0f0f;
    let pairs = (halves ^ (halves << 2)) & 0x3333;
    let bits = (pairs ^ (pairs << 1)) & 0x5555;
    bits << 1
}

// Of two bytes.
pub(crate) fn spread_two(bytes: u32) -> u32
    requires { bytes < 65536 }
    ensures { low_bits 32 result ≡ spread (low_bits 16 bytes) }
{
    let low = spread_byte((bytes % 256) as u16);
    let high = spread_byte((bytes / 256) as u16);
    low as u32 + 65536 * (high as u32)
}
