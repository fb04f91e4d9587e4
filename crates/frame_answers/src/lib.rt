// The answers of the frame calls in document 01's numbers: 0 for success or the number of the refusal, and the value that goes with
// it. Every answer has its numbers, by the rules of crate answers. The answers' types stand in crate `frame` and those of the numbers in
// `answers`, so each conversion is a function here and no `From`.
#![tactic(auto)]

ghost use Rattle.std.specs.Prelude.{◌≡◌};
ghost use Rattle.frame.specs.Answers.{read_number, read_value, write_number, write_value, of_read, of_written};
ghost use Rattle.answers.specs.Numbers.{value_numbers, frame_numbers};

use answers::{ValueNumbers, numbers};
use frame::{ReadRefusal, WriteRefusal};

fn read_refusal(refusal: ReadRefusal) -> ValueNumbers
    ensures { result ≡ value_numbers (read_number refusal) (read_value refusal) }
{
    match refusal {
        ReadRefusal::BitsNotLent => numbers(31, 0),
        ReadRefusal::NoFlags => numbers(32, 0),
        ReadRefusal::ZeroMissing(at) => numbers(33, at.0),
        ReadRefusal::NoContent => numbers(35, 0),
        ReadRefusal::TooLong => numbers(36, 0),
        ReadRefusal::WrongCheck => numbers(37, 0),
        ReadRefusal::OutputShort(needed) => numbers(38, needed),
    }
}

pub fn frame_read(read: Result<usize, ReadRefusal>) -> ValueNumbers
    ensures { result ≡ frame_numbers (of_read read) }
{
    match read {
        Ok(content) => numbers(0, content),
        Err(refusal) => read_refusal(refusal),
    }
}

fn write_refusal(refusal: WriteRefusal) -> ValueNumbers
    ensures { result ≡ value_numbers (write_number refusal) (write_value refusal) }
{
    match refusal {
        WriteRefusal::BitsNotLent => numbers(66, 0),
        WriteRefusal::NoContent => numbers(21, 0),
        WriteRefusal::TooLong => numbers(22, 0),
        WriteRefusal::OutputShort(needed) => numbers(23, needed),
    }
}

pub fn frame_written(written: Result<usize, WriteRefusal>) -> ValueNumbers
    ensures { result ≡ frame_numbers (of_written written) }
{
    match written {
        Ok(bits) => numbers(0, bits),
        Err(refusal) => write_refusal(refusal),
    }
}
