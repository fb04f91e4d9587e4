// The seven signs, their values by code, and the character of a byte.
ghost use Rattle.std.specs.Prelude.{◌≡◌};
ghost use Rattle.block.specs.Signs.{koi7, table_of, sign_of, end_byte};
ghost use Rattle.block.specs.Answers.{end_number};
ghost use Rattle.block.specs.Characters as rule;

use crate::{Code, EndSign, Method};

pub const SOH: u8 = 0x01;

pub const STX: u8 = 0x02;

pub const ETX: u8 = 0x03;

pub const DLE: u8 = 0x10;

pub const US: u8 = 0x1F;

// These two are others in DKOI.
pub const SYN: u8 = 0x16;

pub const ETB: u8 = 0x17;

// No byte above it is a sign of KOI-7, and most of a text is above it. Of DKOI it is not the greatest: SYN is 32 there.
pub const GREATEST_SIGN: u8 = US;

const DKOI_SYN: u8 = 0x32;

const DKOI_ETB: u8 = 0x26;

pub fn syn(code: Code) -> u8
    ensures { result ≡ (table_of code).SYN }
{
    match code {
        Code::Koi7 => SYN,
        Code::Dkoi => DKOI_SYN,
    }
}

fn etb(code: Code) -> u8
    ensures { result ≡ (table_of code).ETB }
{
    match code {
        Code::Koi7 => ETB,
        Code::Dkoi => DKOI_ETB,
    }
}

// The place in KOI-7 of a character of the code: the two signs change places with what stands there.
#[tactic(auto, unfolding(crate::specs::Signs::sign_of))]
pub fn in_koi7(code: Code, c: u8) -> u8
    ensures { sign_of koi7 result ≡ sign_of (table_of code) c }
{
    match code {
        Code::Koi7 => c,
        Code::Dkoi => match c {
            DKOI_SYN => SYN,
            SYN => DKOI_SYN,
            DKOI_ETB => ETB,
            ETB => DKOI_ETB,
            _ => c,
        },
    }
}

// The number of an end sign, under either code: its byte in KOI-7.
impl From<EndSign> for u8 {
    ghost from_gives = { λ end byte. byte ≡ end_number end };

    fn from(end: EndSign) -> u8 {
        match end {
            EndSign::Etx => ETX,
            EndSign::Etb => ETB,
            EndSign::Us => US,
        }
    }
}

// The byte of an end sign.
pub fn end_byte(code: Code, end: EndSign) -> u8
    ensures { result ≡ end_byte (table_of code) end }
{
    match end {
        EndSign::Etx => ETX,
        EndSign::Etb => etb(code),
        EndSign::Us => US,
    }
}

// The character of a byte on the line.
pub fn character(seven: bool, b: u8) -> u8
    ensures { result ≡ rule.character seven b }
{
    if seven { b % 128 } else { b }
}

// Methods 1, 2 and 7 carry seven-bit characters.
pub fn is_seven(m: Method) -> bool
    ensures { result ≡ rule.is_seven m }
{
    matches!(m, Method::Parity | Method::Matrix | Method::Diagonal)
}

// DKOI is a code of eight bits.
pub fn carries(code: Code, m: Method) -> bool
    ensures { result ≡ rule.carries (table_of code) m }
{
    match code {
        Code::Koi7 => true,
        Code::Dkoi => !is_seven(m),
    }
}
