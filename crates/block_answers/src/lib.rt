// The answers of the block calls in document 01's numbers: 0 for success or the number of the refusal, and the values that go with
// it. Every answer has its numbers, by the rules of crate answers. The answers' types stand in crate `block` and those of the numbers in
// `answers`, so each conversion is a function here and no `From`.
#![tactic(auto)]

ghost use Rattle.std.specs.Prelude.{◌≡◌};
ghost use Rattle.block.specs.Answers.{read_number, read_value, write_number, write_value, of_read, of_written};
ghost use Rattle.answers.specs.Numbers.{block_values, read_numbers, value_numbers, written_numbers};

use answers::{BlockNumbers, ValueNumbers, numbers};
use block::{Block, ReadRefusal, WriteRefusal};

fn read_refusal(refusal: ReadRefusal) -> ValueNumbers
    ensures { result ≡ value_numbers (read_number refusal) (read_value refusal) }
{
    match refusal {
        ReadRefusal::CodeNotCarried => numbers(58, 0),
        ReadRefusal::TooLong => numbers(11, 0),
        ReadRefusal::WrongParity(at) => numbers(12, at.0),
        ReadRefusal::NoStart => numbers(13, 0),
        ReadRefusal::OutOfPlace(at) => numbers(14, at.0),
        ReadRefusal::NoEnd => numbers(15, 0),
        ReadRefusal::CheckShort(at) => numbers(52, at.0),
        ReadRefusal::CheckLong(at) => numbers(53, at.0),
        ReadRefusal::TooManyCounted => numbers(17, 0),
        ReadRefusal::WrongCheck => numbers(18, 0),
        ReadRefusal::WrongDiagonal => numbers(54, 0),
        ReadRefusal::OutputShort(needed) => numbers(19, needed),
    }
}

// What an accepted block holds.
fn parts_of(b: Block) -> [usize; 5]
    ensures { result ≡ block_values (of_read (Ok b)) }
{
    [
        usize::from(b.shape),
        u8::from(b.end) as usize,
        b.header,
        b.text,
        b.counted,
    ]
}

pub fn block_read(read: Result<Block, ReadRefusal>) -> BlockNumbers
    ensures { result ≡ read_numbers (of_read read) }
{
    match read {
        Ok(b) => BlockNumbers {
            number: 0,
            values: parts_of(b),
        },
        Err(refusal) => {
            let refused = read_refusal(refusal);
            BlockNumbers {
                number: refused.number,
                values: [refused.value, 0, 0, 0, 0],
            }
        }
    }
}

fn write_refusal(refusal: WriteRefusal) -> ValueNumbers
    ensures { result ≡ value_numbers (write_number refusal) (write_value refusal) }
{
    match refusal {
        WriteRefusal::CodeNotCarried => numbers(58, 0),
        WriteRefusal::NotCarried => numbers(1, 0),
        WriteRefusal::HeaderByte(at) => numbers(2, at.0),
        WriteRefusal::TextByte(at) => numbers(3, at.0),
        WriteRefusal::PartNotEmpty => numbers(4, 0),
        WriteRefusal::TooManyCounted => numbers(5, 0),
        WriteRefusal::OutputShort(needed) => numbers(6, needed),
    }
}

pub fn block_written(written: Result<usize, WriteRefusal>) -> ValueNumbers
    ensures { result ≡ written_numbers (of_written written) }
{
    match written {
        Ok(bytes) => numbers(0, bytes),
        Err(refusal) => write_refusal(refusal),
    }
}
