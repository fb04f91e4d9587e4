// Zero insertion, a byte at a time, or its lowest bits alone, by what stands before it on the line (003 par. 2.2.5). Every function
// takes every input; behind four bits `stuff_byte` and `stuff_bits` give what the rule gives.
#![tactic(auto)]

ghost use Rattle.std.specs.Prelude.{◌≡◌, ◌<◌};
ghost use Rattle.zero_insertion.specs.Insertion.{fives_in, Sends};

// A byte of content or check, or its lowest bits, as they are sent: the bits with the inserted zeros, how many zeros those are, and the
// last four bits sent.
#[derive(Clone, Copy)]
pub struct SentByte {
    pub bits: u32,
    pub zeros: u32,
    pub before: u32,
}

// A one at each place where five ones in a row start.
pub fn fives(x: u32) -> u32
    ensures { result ≡ fives_in x }
{
    let two = x & (x >> 1);
    (two & (two >> 2)) & (x >> 4)
}

// A byte as it is sent behind four bits. In n ^ (n - 1) the bits up to the lowest one of n are ones.
pub fn stuff_byte(before: u32, byte: u8) -> SentByte
    ensures { before < 16 → Sends 8 before byte result }
{
    let bits = byte as u32;
    let fifths = fives(before | (bits << 4));
    if fifths == 0 {
        return SentByte {
            bits,
            zeros: 0,
            before: bits >> 4,
        };
    }
    let low = bits & (fifths ^ (fifths - 1));
    let high = bits ^ low;
    let more = fives(high);
    if more == 0 {
        let sent = low | (high << 1);
        return SentByte {
            bits: sent,
            zeros: 1,
            before: sent >> 5,
        };
    }
    let middle = high & (((more ^ (more - 1)) << 4) | 15);
    let sent = (low | (middle << 1)) | ((high ^ middle) << 2);
    SentByte {
        bits: sent,
        zeros: 2,
        before: sent >> 6,
    }
}

// The k lowest bits of a byte, fewer than eight, as they are sent behind four bits. They are sent as a byte whose other bits are zeros, of
// which none is kept: behind a zero none is inserted.
pub fn stuff_bits(before: u32, byte: u8, k: u32) -> SentByte
    ensures { before < 16 → k < 8 → Sends k before byte result }
{
    let k = k & 7;
    let sent = stuff_byte(before, byte & ((1u8 << k) - 1));
    let line = before | (sent.bits << 4);
    SentByte {
        bits: sent.bits,
        zeros: sent.zeros,
        before: (line >> (k + (sent.zeros & 3))) & 15,
    }
}
