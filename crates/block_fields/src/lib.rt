// What a character is in its field (document 01, part 3): `judge` has one match for each field, by the character's place in KOI-7
// (`in_koi7` of crate block). It takes every input.
#![tactic(auto, using(block::proofs::NoSign::no_sign), unfolding(block::specs::Signs::sign_of))]

ghost use Rattle.std.specs.Prelude.{◌≡◌};
ghost use Rattle.block.specs.Signs.{koi7, sign_of, dle};
ghost use Rattle.block.specs.Walk as rule;

use block::{DLE, ETB, ETX, EndSign, Field, Judged, Mark, SOH, STX, SYN, US};

// Methods 1, 2 and 7 carry no clear text, so their DLE starts nothing.
fn dle_in_start(seven: bool) -> Judged
    ensures { result ≡ rule.in_start seven dle }
{
    if seven {
        Judged::NoStart
    } else {
        Judged::Is(Mark::LeftOut, Field::StartDle)
    }
}

fn dle_in_header(seven: bool) -> Judged
    ensures { result ≡ rule.in_header seven dle }
{
    if seven {
        Judged::OutOfPlace
    } else {
        Judged::Is(Mark::InnerStart, Field::HeaderDle)
    }
}

fn judge_start(seven: bool, c: u8) -> Judged
    ensures { result ≡ rule.in_start seven (sign_of koi7 c) }
{
    match c {
        SOH => Judged::Is(Mark::LeftOut, Field::Header),
        STX => Judged::Is(Mark::LeftOut, Field::Text),
        DLE => dle_in_start(seven),
        SYN => Judged::Is(Mark::LeftOut, Field::Start),
        ETX => Judged::NoStart,
        ETB => Judged::NoStart,
        US => Judged::NoStart,
        0x00..=0x7F => Judged::NoStart,
        0x80..=0xFF => Judged::NoStart,
    }
}

fn judge_start_dle(c: u8) -> Judged
    ensures { result ≡ rule.in_start_dle (sign_of koi7 c) }
{
    match c {
        SOH => Judged::NoStart,
        STX => Judged::Is(Mark::LeftOut, Field::Clear),
        DLE => Judged::NoStart,
        SYN => Judged::NoStart,
        ETX => Judged::NoStart,
        ETB => Judged::NoStart,
        US => Judged::NoStart,
        0x00..=0x7F => Judged::NoStart,
        0x80..=0xFF => Judged::NoStart,
    }
}

fn judge_header(seven: bool, c: u8) -> Judged
    ensures { result ≡ rule.in_header seven (sign_of koi7 c) }
{
    match c {
        SOH => Judged::OutOfPlace,
        STX => Judged::Is(Mark::InnerStart, Field::Text),
        DLE => dle_in_header(seven),
        SYN => Judged::Is(Mark::LeftOut, Field::Header),
        ETX => Judged::Ends(EndSign::Etx),
        ETB => Judged::Ends(EndSign::Etb),
        US => Judged::Ends(EndSign::Us),
        0x00..=0x7F => Judged::Is(Mark::HeaderByte, Field::Header),
        0x80..=0xFF => Judged::Is(Mark::HeaderByte, Field::Header),
    }
}

fn judge_header_dle(c: u8) -> Judged
    ensures { result ≡ rule.in_header_dle (sign_of koi7 c) }
{
    match c {
        SOH => Judged::DleOutOfPlace,
        STX => Judged::Is(Mark::InnerStart, Field::Clear),
        DLE => Judged::DleOutOfPlace,
        SYN => Judged::DleOutOfPlace,
        ETX => Judged::DleOutOfPlace,
        ETB => Judged::DleOutOfPlace,
        US => Judged::DleOutOfPlace,
        0x00..=0x7F => Judged::DleOutOfPlace,
        0x80..=0xFF => Judged::DleOutOfPlace,
    }
}

fn judge_text(c: u8) -> Judged
    ensures { result ≡ rule.in_text (sign_of koi7 c) }
{
    match c {
        SOH => Judged::OutOfPlace,
        STX => Judged::OutOfPlace,
        DLE => Judged::OutOfPlace,
        SYN => Judged::Is(Mark::LeftOut, Field::Text),
        ETX => Judged::Ends(EndSign::Etx),
        ETB => Judged::Ends(EndSign::Etb),
        US => Judged::Ends(EndSign::Us),
        0x00..=0x7F => Judged::Is(Mark::TextByte, Field::Text),
        0x80..=0xFF => Judged::Is(Mark::TextByte, Field::Text),
    }
}

fn judge_clear(c: u8) -> Judged
    ensures { result ≡ rule.in_clear (sign_of koi7 c) }
{
    match c {
        SOH => Judged::Is(Mark::TextByte, Field::Clear),
        STX => Judged::Is(Mark::TextByte, Field::Clear),
        DLE => Judged::Is(Mark::LeftOut, Field::ClearDle),
        SYN => Judged::Is(Mark::TextByte, Field::Clear),
        ETX => Judged::Is(Mark::TextByte, Field::Clear),
        ETB => Judged::Is(Mark::TextByte, Field::Clear),
        US => Judged::Is(Mark::TextByte, Field::Clear),
        0x00..=0x7F => Judged::Is(Mark::TextByte, Field::Clear),
        0x80..=0xFF => Judged::Is(Mark::TextByte, Field::Clear),
    }
}

fn judge_clear_dle(c: u8) -> Judged
    ensures { result ≡ rule.in_clear_dle (sign_of koi7 c) }
{
    match c {
        SOH => Judged::DleOutOfPlace,
        STX => Judged::DleOutOfPlace,
        DLE => Judged::Is(Mark::TextByte, Field::Clear),
        SYN => Judged::Is(Mark::LeftOut, Field::Clear),
        ETX => Judged::Ends(EndSign::Etx),
        ETB => Judged::Ends(EndSign::Etb),
        US => Judged::Ends(EndSign::Us),
        0x00..=0x7F => Judged::DleOutOfPlace,
        0x80..=0xFF => Judged::DleOutOfPlace,
    }
}

pub fn judge(seven: bool, f: Field, c: u8) -> Judged
    ensures { result ≡ rule.judge seven f (sign_of koi7 c) }
{
    match f {
        Field::Start => judge_start(seven, c),
        Field::StartDle => judge_start_dle(c),
        Field::Header => judge_header(seven, c),
        Field::HeaderDle => judge_header_dle(c),
        Field::Text => judge_text(c),
        Field::Clear => judge_clear(c),
        Field::ClearDle => judge_clear_dle(c),
    }
}
