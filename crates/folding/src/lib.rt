// A content entered into the register of a generator by folding: a multiple of the generator with few powers takes words away at the
// front of the content and adds them further on; what is left is entered word by word, and its last bytes byte by byte. Each
// generator says how a byte and a word enter its register and how a word is folded; the steps over a content stand here, once.
#![tactic(auto)]

ghost use Rattle.std.specs.Prelude.{◌≡◌, ℕ, [], ◌∷◌, ◌++◌, length, Bool, List};
ghost use Rattle.bits.specs.Strings.{zeros};
ghost use Rattle.bits.specs.Bytes.{low_bits, bits_of};
ghost use Rattle.registers.specs.Register.{enter};
ghost use Rattle.folding.specs.Content.{Folded, FoldedAll, EnteredAll};

use words::{word, words_before};

pub trait Generator {
    // The register of a check.
    type Register: Copy;

    // What is yet to be added to the next words of a content.
    type Pending: Copy;

    // Contents of fewer bytes are entered as fast without folding.
    const FOLDED_FROM: usize;

    // The bytes to which something may be pending.
    const PENDING: usize;

    ghost PENDING: { ℕ };

    ghost generator: { List Bool };

    ghost register_bits: { Self.Register → List Bool };

    ghost pending_words: { Self.Pending → List ℕ };

    // The register before any content, from zero.
    fn empty() -> Self::Register
        ensures { register_bits result ≡ zeros (length generator) };

    // How a byte and a word enter, and below how a word is folded, are shifts that each generator writes out as its powers have them.
    fn enter_byte(register: Self::Register, byte: u8) -> Self::Register
        ensures { register_bits result ≡ enter generator (register_bits register) (low_bits 8 byte) };

    fn enter_word(register: Self::Register, word: u64) -> Self::Register
        ensures { register_bits result ≡ enter generator (register_bits register) (low_bits 64 word) };

    // A register is what is yet to be added to the first word. What is pending is an array of a length that each generator fixes, so it
    // is begun and moved on by literals, where a body for every length would move its words in a loop.
    fn begin(register: Self::Register) -> Self::Pending
        ensures { FoldedAll generator PENDING (register_bits register) [] (pending_words result) };

    fn fold_word(pending: Self::Pending, word: u64) -> Self::Pending
        ensures { Folded generator PENDING (pending_words pending) (low_bits 64 word) (pending_words result) };

    // What is to be added to the next word, and what to those behind it.
    fn next(pending: Self::Pending) -> (u64, Self::Pending)
        ensures { pending_words pending ++ 0 ∷ [] ≡ result.0 ∷ pending_words result.1 };

    fn enter_bytes(start: Self::Register, bytes: &[u8]) -> Self::Register
        ensures { register_bits result ≡ enter generator (register_bits start) (bits_of bytes.now) }
    {
        let mut register = start;
        for byte in bytes {
            register = Self::enter_byte(register, *byte);
        }
        register
    }

    // Words folded into what follows them.
    fn fold_words(start: Self::Register, words: &[[u8; 8]]) -> Self::Pending
        ensures { FoldedAll generator PENDING (register_bits start) words.now (pending_words result) }
    {
        let mut pending = Self::begin(start);
        for bytes in words {
            pending = Self::fold_word(pending, word(bytes));
        }
        pending
    }

    // Words entered into an empty register, each with what is yet to be added to it.
    fn enter_words(first: Self::Pending, words: &[[u8; 8]]) -> Self::Register
        ensures { EnteredAll generator (pending_words first) words.now (register_bits result) }
    {
        let mut register = Self::empty();
        let mut pending = first;
        for bytes in words {
            let (added, behind) = Self::next(pending);
            register = Self::enter_word(register, added ^ word(bytes));
            pending = behind;
        }
        register
    }

    // A content entered into a register.
    fn enter_content(start: Self::Register, content: &[u8]) -> Self::Register
        ensures { register_bits result ≡ enter generator (register_bits start) (bits_of content.now) }
    {
        if content.len() < 8 {
            return Self::enter_bytes(start, content);
        }
        let (words, tail) = content.as_chunks::<8>();
        let folded = words_before(content.len(), Self::FOLDED_FROM, Self::PENDING);
        let (front, rest) = words.split_at(folded);
        let pending = Self::fold_words(start, front);
        let register = Self::enter_words(pending, rest);
        Self::enter_bytes(register, tail)
    }
}
