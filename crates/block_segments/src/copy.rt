// The characters of a segment copied to the start of an output. What does not fit there is left out.
ghost use Rattle.std.specs.Prelude.{◌≡◌, false, [], ◌∷◌, ◌++◌, map, ◌+◌, ◌<◌};
ghost use Rattle.std.proofs.lemmas.List.Edits.{sets};
ghost use Rattle.block.specs.Signs.{table_of};
ghost use Rattle.block.specs.Characters as rule;
ghost use Rattle.block_framing.specs.Framings.{kept_bytes};
ghost use Rattle.block_segments.specs.Segment.{kept_in, Copied};

use crate::Segment;
use crate::kept::Keeping;
use block::{Code, character};

// Stores b at n where the output has that place, and answers the next place, whether it has or not (`store_one` of block_store stays
// at the end).
fn put(out: &mut [u8], n: usize, b: u8) -> usize
    requires { n < 18446744073709551615 }
    ensures { (result ≡ n + 1) × (out.new ≡ sets out.old n (b ∷ [])) }
{
    if n < out.len() {
        out[n] = b;
    }
    n + 1
}

// The characters of the kept bytes of a segment, judged byte by byte; answers how many they are.
pub fn copy_kept(code: Code, seven: bool, clear: bool, part: &[u8], out: &mut [u8]) -> usize
    ensures { Copied seven (kept_bytes (table_of code) clear seven false part.now) out.old result out.new }
{
    let mut n = 0;
    let mut keeping = Keeping::new(code, clear, seven);
    for b in part {
        if keeping.keeps(*b) {
            n = put(&mut *out, n, character(seven, *b));
        }
    }
    n
}

// The characters of a segment that keeps every byte.
fn copy_whole(seven: bool, part: &[u8], out: &mut [u8])
    ensures { out.new ≡ sets out.old 0 (map (rule.character seven) part.now) }
{
    let fits = &part[..part.len().min(out.len())];
    // By an index: with `zip` over `iter_mut` the proof did not close, since that loop's state does not hold the output.
    for (i, b) in fits.iter().enumerate() {
        out[i] = character(seven, *b);
    }
}

// The characters of a segment; answers how many they are.
fn copy_segment(seven: bool, segment: &Segment<'_>, out: &mut [u8]) -> usize
    ensures { Copied seven (kept_in seven segment.now) out.old result out.new }
{
    if segment.kept == segment.bytes.len() {
        copy_whole(seven, segment.bytes, &mut *out);
        return segment.kept;
    }
    copy_kept(segment.code, seven, segment.clear, segment.bytes, &mut *out)
}

// The characters of a header and, behind them, those of a text.
pub fn copy_both(seven: bool, header: &Segment<'_>, text: &Segment<'_>, out: &mut [u8])
    ensures { out.new ≡ sets out.old 0 (map (rule.character seven) (kept_in seven header.now ++ kept_in seven text.now)) }
{
    let n = copy_segment(seven, header, &mut *out);
    if n < out.len() {
        copy_segment(seven, text, &mut out[n..]);
    }
}
