// The register of the diagonals over a slice.
ghost use Rattle.std.specs.Prelude.{◌≡◌};
ghost use Rattle.block_diagonals.specs.Sums.{turn_in, turn_all, xor_bytes};

// A byte added, and the register turned up by one row. A division by 64 is a shift.
pub(crate) fn turn_in(register: u8, b: u8) -> u8
    ensures { result ≡ turn_in register b }
{
    let sum = register ^ b;
    sum % 64 * 2 + sum / 64 % 2
}

// The bytes of a slice, one after the other.
fn turn_each(start: u8, part: &[u8]) -> u8
    ensures { result ≡ turn_all start part.now }
{
    let mut register = start;
    for b in part {
        register = turn_in(register, *b);
    }
    register
}

// 56 bytes added to 56, place by place. The compiler takes them all at once.
fn added(sums: &[u8; 56], piece: &[u8; 56]) -> [u8; 56]
    ensures { result ≡ xor_bytes sums.now piece.now }
{
    let mut added = *sums;
    for (i, b) in piece.iter().enumerate() {
        added[i] = sums[i] ^ *b;
    }
    added
}

// A slice. Behind 56 bytes, eight times seven, every row stands where it stood, so pieces of 56 bytes are summed and enter as one.
pub(crate) fn turn_slice(start: u8, part: &[u8]) -> u8
    ensures { result ≡ turn_all start part.now }
{
    let Some((first, behind)) = part.split_first_chunk::<56>() else {
        return turn_each(start, part);
    };
    let mut sums = *first;
    let mut rest = behind;
    while let Some((piece, behind)) = rest.split_first_chunk::<56>() {
        sums = added(&sums, piece);
        rest = behind;
    }
    turn_each(turn_each(start, &sums), rest)
}
