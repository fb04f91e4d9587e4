// The answers of the calls, printed: what was written or taken, or `refused` with document 01's number and value.
use answers::ValueNumbers;
use block::{Block, ReadRefusal};
use block_answers::block_read;
use std::io;

fn print_refused(rt: &impl Print, label: &str, number: u32, value: usize) -> io::Result<()> {
    println!(rt; "{label} refused {number} {value}")
}

// What was written, with the word for it: the length of a line, or the bits of a frame. A refusal has its numbers.
pub fn print_written(
    rt: &impl Print,
    label: &str,
    word: &str,
    numbers: ValueNumbers,
) -> io::Result<()> {
    let ValueNumbers { number, value } = numbers;
    if number == 0 {
        return println!(rt; "{label} {word} {value}");
    }
    print_refused(rt, label, number, value)
}

// The lengths of header and text, and the counted number.
pub fn print_read(
    rt: &impl Print,
    label: &str,
    read: Result<Block, ReadRefusal>,
) -> io::Result<()> {
    match read {
        Ok(b) => {
            let header = b.header;
            let text = b.text;
            let counted = b.counted;
            println!(rt; "{label} taken {header} {text} {counted}")
        }
        Err(refusal) => {
            let numbers = block_read(Err(refusal));
            print_refused(rt, label, numbers.number, numbers.values[0])
        }
    }
}
