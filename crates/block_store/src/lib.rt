// Bytes of a line stored in the output from a place `at` on: characters with their parity, and clear text. Each public function
// takes every input: what has no room in the output is left out. It answers the next place. `seven` and the parity are two parameters:
// a check is stored with the parity of its line, but as eight-bit bytes. The output and the place are two, and the next place is the
// answer: a struct that holds the loan would have every contract speak of the loan as well.
#![tactic(auto)]

ghost use Rattle.std.specs.Prelude.{◌≡◌, [], ◌∷◌, map, eqb};
ghost use Rattle.block.specs.Signs.{table_of};
ghost use Rattle.block.specs.Characters as characters;
ghost use Rattle.block.specs.Write as rule;
ghost use Rattle.block_store.specs.Store.{Stored};

use block::{Code, DLE, Parity};
use block_parity::with_parity;

// The byte by which a character is sent.
#[tactic(auto, unfolding(block::specs::Characters::sent))]
fn sent(seven: bool, p: Parity, b: u8) -> u8
    ensures { result ≡ characters.sent seven p b }
{
    if seven { with_parity(p, b) } else { b }
}

// Characters one by one, each with its parity bit in methods 1, 2 and 7. Signs and checks are stored so: they are one or two bytes.
pub fn store_each(seven: bool, parity: Parity, part: &[u8], out: &mut [u8], at: usize) -> usize
    ensures { Stored out.old at (map (characters.sent seven parity) part.now) out.new result }
{
    let fits = &part[..part.len().min(out.len().saturating_sub(at))];
    // By an index: with `zip` over `iter_mut` the proof did not close, since that loop's state does not hold the output.
    for (i, b) in fits.iter().enumerate() {
        out[at + i] = sent(seven, parity, *b);
    }
    at + fits.len()
}

// The 16 bytes by which 16 characters are sent. The compiler makes all 16 at once, which it does not with an array's `map`.
fn sixteen_sent(seven: bool, parity: Parity, part: &[u8; 16]) -> [u8; 16]
    ensures { result ≡ map (characters.sent seven parity) part.now }
{
    let mut bytes = *part;
    for byte in bytes.iter_mut() {
        *byte = sent(seven, parity, *byte);
    }
    bytes
}

// Characters, each with its parity bit in methods 1, 2 and 7. The compiler takes 32 and more together by itself; of 16 to 31, the first
// 16 are made and stored at once here.
pub fn store_characters(
    seven: bool,
    parity: Parity,
    part: &[u8],
    out: &mut [u8],
    at: usize,
) -> usize
    ensures { Stored out.old at (map (characters.sent seven parity) part.now) out.new result }
{
    let fitting = part.len().min(out.len().saturating_sub(at));
    if let Some((first, rest)) = part.split_first_chunk::<16>()
        && fitting / 16 == 1
    {
        out[at..at + 16].copy_from_slice(&sixteen_sent(seven, parity, first));
        return store_each(seven, parity, rest, &mut *out, at + 16);
    }
    store_each(seven, parity, part, &mut *out, at)
}

// Stores one byte where there is room.
fn store_one(b: u8, out: &mut [u8], at: usize) -> usize
    ensures { Stored out.old at (b ∷ []) out.new result }
{
    if at < out.len() {
        out[at] = b;
        return at + 1;
    }
    at
}

// One byte of clear text, DLE twice. It is the same in both codes.
fn store_escaped(seven: bool, parity: Parity, b: u8, out: &mut [u8], at: usize) -> usize
    ensures { (code : Code) → Stored out.old at (map (characters.sent seven parity) (rule.doubled (eqb b (table_of code).DLE) b [])) out.new result }
{
    let byte = sent(seven, parity, b);
    let next = store_one(byte, &mut *out, at);
    if b == DLE {
        return store_one(byte, &mut *out, next);
    }
    next
}

// Clear text, each DLE twice.
pub fn store_clear(seven: bool, parity: Parity, part: &[u8], out: &mut [u8], at: usize) -> usize
    ensures { (code : Code) → Stored out.old at (map (characters.sent seven parity) (rule.escaped (table_of code) part.now)) out.new result }
{
    let mut next = at;
    for b in part {
        next = store_escaped(seven, parity, *b, &mut *out, next);
    }
    next
}
