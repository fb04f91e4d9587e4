// Runs of clear text.
ghost use Rattle.std.specs.Prelude.{◌≡◌};
ghost use Rattle.block.specs.Signs.{table_of};
ghost use Rattle.block.specs.Scan.{first_failing};
ghost use Rattle.block_scan.specs.Tests.{is_clear_byte};

use block::{Code, DLE, character};
use runs::{ByteTest, run};

// In clear text data is all but DLE, which is the same in both codes.
#[derive(Clone, Copy)]
struct ClearByte {
    code: Code,
    seven: bool,
}

impl ByteTest for ClearByte {
    ghost passing = { λ test. is_clear_byte (table_of test.code) test.seven };

    fn passes(self, b: u8) -> bool {
        character(self.seven, b) != DLE
    }
}

// How many bytes of clear text a part begins with.
pub(crate) fn clear_run(code: Code, seven: bool, part: &[u8]) -> usize
    ensures { result ≡ first_failing (is_clear_byte (table_of code) seven) 0 part.now }
{
    run(ClearByte { code, seven }, part)
}
