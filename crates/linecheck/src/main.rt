// The program of document 01, part 5: reads the settings, a digit 1 to 4 or 7 and `e` or `o`, and one line, which is every byte up to
// the end of input. It prints `taken` with shape, end sign, lengths of header and text and the counted number, or `refused` with
// number and place, or `settings`. Lines are in KOI-7. It reads at most one byte more than question 11 allows, which decides the answer.
#![tactic(auto)]

ghost use Rattle.std.specs.Prelude.{◌≤◌, length, IfOk};

use block::{Block, Code, LINE_LIMIT, Link, Method, Parity, ReadRefusal};
use std::io;
use std::io::Read;

// How many bytes the settings take.
const SETTINGS: usize = 2;

// The settings are characters, and a digit and a letter are no codes of the C calls.
fn method_of(digit: u8) -> Option<Method> {
    match digit {
        b'1' => Some(Method::Parity),
        b'2' => Some(Method::Matrix),
        b'3' => Some(Method::Cyclic),
        b'4' => Some(Method::CyclicAlternative),
        b'7' => Some(Method::Diagonal),
        _ => None,
    }
}

fn parity_of(letter: u8) -> Option<Parity> {
    match letter {
        b'e' => Some(Parity::Even),
        b'o' => Some(Parity::Odd),
        _ => None,
    }
}

// The link that the settings name, and the line behind them.
fn settings_of(input: &[u8]) -> Option<(Link, &[u8])> {
    let [digit, letter, line @ ..] = input else {
        return None;
    };
    let method = method_of(*digit)?;
    let parity = parity_of(*letter)?;
    let code = Code::Koi7;
    Some((
        Link {
            method,
            parity,
            code,
        },
        line,
    ))
}

fn print_taken(rt: &impl Print, b: Block) -> io::Result<()> {
    let shape = usize::from(b.shape);
    let end = u8::from(b.end);
    let header = b.header;
    let text = b.text;
    let counted = b.counted;
    print!(rt; "taken {shape} {end:02X} {header} {text} {counted}")
}

fn print_refused(rt: &impl Print, refusal: ReadRefusal) -> io::Result<()> {
    let numbers = block_answers::block_read(Err(refusal));
    let number = numbers.number;
    let value = numbers.values[0];
    print!(rt; "refused {number} {value}")
}

fn run(rt: &impl Print, input: &[u8]) -> io::Result<()> {
    let Some((link, line)) = settings_of(input) else {
        return print!(rt; "settings");
    };
    let mut out = [0u8; LINE_LIMIT];
    match block_reader::read_block(link, line, &mut out) {
        Ok(b) => print_taken(rt, b),
        Err(refusal) => print_refused(rt, refusal),
    }
}

// Reads until the buffer is full or the input ends. The place moves on by what the input gave, so no `for` is plainer.
fn read_full<R: Read>(input: &mut R, buffer: &mut [u8]) -> io::Result<usize>
    ensures { IfOk result (λ n. n ≤ length buffer.old) }
{
    let mut n = 0;
    while n < buffer.len() {
        let got = input.read(&mut buffer[n..])?;
        if got == 0 {
            return Ok(n);
        }
        n += got;
    }
    Ok(n)
}

fn main(rt: HostRuntime) -> io::Result<()> {
    let mut input = [0u8; SETTINGS + LINE_LIMIT + 1];
    let n = read_full(&mut rt.stdin(), &mut input)?;
    run(&rt, &input[..n])?;
    print!(&rt; "\n")
}
