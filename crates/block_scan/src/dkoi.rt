// Runs of header and plain text in DKOI.
ghost use Rattle.std.specs.Prelude.{◌≡◌};
ghost use Rattle.block.specs.Signs.{dkoi};
ghost use Rattle.block.specs.Scan.{first_failing};
ghost use Rattle.block_scan.specs.Tests.{is_plain_byte};

use crate::off::is_no_sign;
use block::{Code, character, in_koi7};
use runs::{ByteTest, run};

// What has the place of no sign in KOI-7 is no sign.
#[derive(Clone, Copy)]
struct DkoiByte {
    seven: bool,
    low: bool,
}

impl ByteTest for DkoiByte {
    ghost passing = { λ test. is_plain_byte dkoi test.seven test.low };

    fn passes(self, b: u8) -> bool {
        is_no_sign(in_koi7(Code::Dkoi, character(self.seven, b))) & (!self.low | (b < 0x80))
    }
}

// How many bytes of header or plain text a part in DKOI begins with.
pub(crate) fn dkoi_run(seven: bool, low: bool, part: &[u8]) -> usize
    ensures { result ≡ first_failing (is_plain_byte dkoi seven low) 0 part.now }
{
    run(DkoiByte { seven, low }, part)
}
