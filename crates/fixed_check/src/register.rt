// A content enters the register of a check: word by word, and its last bytes byte by byte. A fixed block is short, so nothing is folded.
ghost use Rattle.std.specs.Prelude.{◌≡◌, List, Bool};
ghost use Rattle.std.specs.List.{concat};
ghost use Rattle.bits.specs.Bytes.{low_bits, bits_of};
ghost use Rattle.registers.specs.Register.{enter};

use words::word;

pub(crate) trait CheckRegister: Copy {
    ghost generator: { List Bool };

    ghost bits: { Self → List Bool };

    // How a byte and a word enter are shifts that each polynomial writes out as its powers have them.
    fn enter_byte(self, byte: u8) -> Self
        ensures { bits result ≡ enter generator (bits self) (low_bits 8 byte) };

    fn enter_word(self, word: u64) -> Self
        ensures { bits result ≡ enter generator (bits self) (low_bits 64 word) };

    fn enter_bytes(self, bytes: &[u8]) -> Self
        ensures { bits result ≡ enter generator (bits self) (bits_of bytes.now) }
    {
        let mut register = self;
        for byte in bytes {
            register = register.enter_byte(*byte);
        }
        register
    }

    fn enter_words(self, words: &[[u8; 8]]) -> Self
        ensures { bits result ≡ enter generator (bits self) (bits_of (concat words.now)) }
    {
        let mut register = self;
        for bytes in words {
            register = register.enter_word(word(bytes));
        }
        register
    }

    fn enter_content(self, content: &[u8]) -> Self
        ensures { bits result ≡ enter generator (bits self) (bits_of content.now) }
    {
        let (words, tail) = content.as_chunks::<8>();
        self.enter_words(words).enter_bytes(tail)
    }
}
