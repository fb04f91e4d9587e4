// Words of 64 bits: eight bytes of a content as one, and how many words of a content are taken before its last bytes.
#![tactic(auto)]

ghost use Rattle.std.specs.Prelude.{◌≡◌};
ghost use Rattle.bits.specs.Bytes.{low_bits, bits_of};
ghost use Rattle.words.specs.Words.{word_at, words_before};

// Eight bytes as a word, the first lowest: one load.
pub fn word(bytes: &[u8; 8]) -> u64
    ensures { low_bits 64 result ≡ bits_of bytes.now }
{
    u64::from_le_bytes(*bytes)
}

// The eight bytes of a content from the place `at` on, the first lowest. 0 where the content has no eight there.
pub fn word_at(content: &[u8], at: usize) -> u64
    ensures { low_bits 64 result ≡ word_at content.now at }
{
    if at > content.len() {
        return 0;
    }
    let (_, behind) = content.split_at(at);
    match behind.first_chunk::<8>() {
        Some(bytes) => word(bytes),
        None => 0,
    }
}

// None of a content shorter than `least`, else as many as leave the last bytes.
pub fn words_before(size: usize, least: usize, last: usize) -> usize
    ensures { result ≡ words_before size least last }
{
    if size < least {
        0
    } else {
        size.saturating_sub(last) >> 3
    }
}
