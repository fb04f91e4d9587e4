// A flag at a place of the line.
ghost use Rattle.std.specs.Prelude.{◌≡◌, take, drop};
ghost use Rattle.bits.specs.Strings.{same};
ghost use Rattle.bits.specs.Bytes.{bits_of};
ghost use Rattle.frame.specs.Frame.{flag};

use frame::FLAG;

// Whether the eight bits from a place on are a flag.
pub fn is_flag(line: &[u8], at: usize) -> bool
    ensures { result ≡ same (take 8 (drop at (bits_of line.now))) flag }
{
    let index = at / 8;
    let shift = at % 8;
    if index >= line.len() {
        return false;
    }
    if shift == 0 {
        return line[index] == FLAG;
    }
    if index + 1 >= line.len() {
        return false;
    }
    let two = (line[index] as u32) | ((line[index + 1] as u32) << 8);
    (two >> shift) % 256 == FLAG as u32
}
