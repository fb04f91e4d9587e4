// Runs of header and plain text.
ghost use Rattle.std.specs.Prelude.{◌≡◌, true};
ghost use Rattle.block.specs.Signs.{koi7, table_of};
ghost use Rattle.block.specs.Scan.{first_failing, AllPass};
ghost use Rattle.block_scan.specs.Tests.{is_plain_byte};

use crate::dkoi::dkoi_run;
use crate::off::{is_no_sign, off_signs};
use block::{Code, GREATEST_SIGN, character};
use runs::{ByteTest, run};

// In header and plain text of KOI-7 data is what is no sign; where `low`, only below 80.
#[derive(Clone, Copy)]
struct PlainByte {
    seven: bool,
    low: bool,
}

impl PlainByte {
    // Whether the 16 characters are above every sign, as those of a text mostly are. The compiler compares all 16 at once.
    fn all_above(self, sixteen: &[u8; 16]) -> bool
        ensures { result ≡ true → AllPass (is_plain_byte koi7 self.seven self.low) sixteen.now 0 16 }
    {
        let mut all = true;
        for b in sixteen {
            all = all & ((character(self.seven, *b) > GREATEST_SIGN) & (!self.low | (*b < 0x80)));
        }
        all
    }

    // Whether the 16 bytes are data of header or plain text: `least` is 0 where one is a sign. The compiler takes all 16 at once.
    fn all_plain(self, sixteen: &[u8; 16]) -> bool
        ensures { result ≡ true → AllPass (is_plain_byte koi7 self.seven self.low) sixteen.now 0 16 }
    {
        let mut least: u8 = 255;
        let mut below = true;
        for b in sixteen {
            least = least.min(off_signs(character(self.seven, *b)));
            below = below & (!self.low | (*b < 0x80));
        }
        below & (least != 0)
    }
}

impl ByteTest for PlainByte {
    ghost passing = { λ test. is_plain_byte koi7 test.seven test.low };

    fn passes(self, b: u8) -> bool {
        is_no_sign(character(self.seven, b)) & (!self.low | (b < 0x80))
    }

    // The cheaper test first.
    fn sixteen_pass(self, sixteen: &[u8; 16]) -> bool {
        self.all_above(sixteen) || self.all_plain(sixteen)
    }
}

// How many bytes of header or plain text a part begins with. In KOI-7, which most links have, 16 bytes are compared at once.
pub fn plain_run(code: Code, seven: bool, low: bool, part: &[u8]) -> usize
    ensures { result ≡ first_failing (is_plain_byte (table_of code) seven low) 0 part.now }
{
    match code {
        Code::Koi7 => run(PlainByte { seven, low }, part),
        Code::Dkoi => dkoi_run(seven, low, part),
    }
}
