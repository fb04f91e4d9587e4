// A register that bytes, and the lowest bits of a byte, enter through the table of a generator, of up to 32 bits, and the bytes of a
// check as they are sent. The table is lent, so that a loop copies none.
#![tactic(auto)]

ghost use Rattle.std.specs.Prelude.{◌≡◌, ◌≤◌};
ghost use Rattle.bits.specs.Bytes.{low_bits, pack};
ghost use Rattle.registers.specs.Register.{enter_by_table, enter_bits_by_table};

#[tactic(auto, unfolding(crate::specs::Register::enter_by_table))]
pub fn enter_byte(table: &[u32; 256], register: u32, byte: u8) -> u32
    ensures { result ≡ enter_by_table table.now register byte }
{
    let at = (register ^ (byte as u32)) % 256;
    table[at as usize] ^ (register / 256)
}

// The k lowest bits of a byte, eight at most, entered alone.
pub fn enter_bits(table: &[u32; 256], register: u32, byte: u8, k: u32) -> u32
    ensures { k ≤ 8 → result ≡ enter_bits_by_table table.now register byte k }
{
    let k = k & 15;
    let at = (((register ^ (byte as u32)) << 8) >> k) & 255;
    table[at as usize] ^ (register >> k)
}

// The bytes of a check in the order sent: its first bit is the low bit of the first byte. Two functions, since the arrays differ in
// length, and each is one call of the library.
pub fn sent16(check: u16) -> [u8; 2]
    ensures { result ≡ pack (low_bits 16 check) }
{
    u16::to_le_bytes(check)
}

pub fn sent32(check: u32) -> [u8; 4]
    ensures { result ≡ pack (low_bits 32 check) }
{
    u32::to_le_bytes(check)
}
