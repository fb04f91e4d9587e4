// Runs of a field.
ghost use Rattle.std.specs.Prelude.{◌≡◌};
ghost use Rattle.block.specs.Signs.{table_of};
ghost use Rattle.block.specs.Scan.{first_failing};
ghost use Rattle.block_scan.specs.Tests.{is_data};

use crate::clear::clear_run;
use crate::plain::plain_run;
use block::{Code, Field};

// How many bytes of data of field f a part of a line begins with.
pub fn data_run(code: Code, seven: bool, f: Field, part: &[u8]) -> usize
    ensures { result ≡ first_failing (is_data (table_of code) seven f) 0 part.now }
{
    match f {
        Field::Start => 0,
        Field::StartDle => 0,
        Field::Header => plain_run(code, seven, false, part),
        Field::HeaderDle => 0,
        Field::Text => plain_run(code, seven, false, part),
        Field::Clear => clear_run(code, seven, part),
        Field::ClearDle => 0,
    }
}
