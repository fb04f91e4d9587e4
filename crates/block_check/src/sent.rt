// The check that the number of the counted bytes stands for, and questions 18 and 54 of a received one.
ghost use Rattle.std.specs.Prelude.{◌≡◌, ◌/◌, take};
ghost use Rattle.bits.specs.Strings.{same};
ghost use Rattle.bits.specs.Bytes.{low_bits, bits_of, pack};
ghost use Rattle.block.specs.Characters as rule;
ghost use Rattle.block.specs.Read.{ReadAnswer, is_diagonal, ask_same};
ghost use Rattle.block_check.specs.Numbers.{check_from};
ghost use Rattle.block_check.specs.Asked.{after_asked};

use block::{Link, Method, Parity, ReadRefusal};
use block_diagonals::characters;
use block_parity::with_parity;
use block_signs::FewBytes;
use cyclic::Cyclic;
use cyclic3::Cyclic3;
use cyclic4::Cyclic4;
use registers::sent16;

// The check in the order sent: none, one byte or two. The five cases stand side by side, as in `number`.
pub fn check_from(link: Link, number: u16) -> FewBytes
    ensures { result ≡ pack (check_from link.method link.parity number) }
{
    match link.method {
        Method::Parity => FewBytes::none(),
        Method::Matrix => FewBytes::one(with_parity(link.parity, (number % 256) as u8)),
        Method::Cyclic => {
            let cyclic = Cyclic3 { register: number };
            FewBytes::two(sent16(cyclic.check()))
        }
        Method::CyclicAlternative => {
            let cyclic = Cyclic4 { register: number };
            FewBytes::two(sent16(cyclic.check()))
        }
        Method::Diagonal => FewBytes::two(characters(link.parity, number)),
    }
}

// Whether bytes are the check that a number stands for.
fn is_check(link: Link, number: u16, received: &[u8]) -> bool
    ensures { result ≡ same (bits_of received.now) (check_from link.method link.parity number) }
{
    received == check_from(link, number).as_slice()
}

// Whether bytes begin with the row check of method 7.
fn row_right(p: Parity, number: u16, received: &[u8]) -> bool
    ensures { result ≡ same (take 8 (bits_of received.now)) (low_bits 8 (rule.with_parity p (number / 256))) }
{
    match received {
        [row, ..] => *row == with_parity(p, (number / 256) as u8),
        [] => false,
    }
}

fn is_diagonal(m: Method) -> bool
    ensures { result ≡ is_diagonal m }
{
    matches!(m, Method::Diagonal)
}

// Questions 18 and 54: whether bytes are the check that a number stands for. Of method 7 the row check is asked first.
pub fn ask_check(link: Link, number: u16, received: &[u8]) -> Result<(), ReadRefusal>
    ensures { (next : ReadAnswer) → after_asked result next ≡ ask_same link.method (bits_of received.now) (check_from link.method link.parity number) next }
{
    if is_check(link, number, received) {
        return Ok(());
    }
    if is_diagonal(link.method) & row_right(link.parity, number, received) {
        return Err(ReadRefusal::WrongDiagonal);
    }
    Err(ReadRefusal::WrongCheck)
}
