// The line of a stored block.
ghost use Rattle.std.specs.Prelude.{◌≡◌, ◌≤◌, length};
ghost use Rattle.bits.specs.Calls.{called};
ghost use Rattle.block.specs.Answers.{write_value};
ghost use Rattle.sender.specs.Sending as rule;
ghost use Rattle.sender.specs.Ring as ring;
ghost use Rattle.sender.specs.Answers.{sent_of};
ghost use Rattle.sender.specs.Right.{Stored};

use crate::questions::{CELL, ask_number};
use crate::ring::{back, submitted_after};
use crate::{SenderRefusal, Station};
use block::{EndSign, Parts, Shape, WriteRefusal};
use block_writer::write_block;
use orders::link_of;

// The method of the stored block with d blocks submitted after it, as the record keeps it.
fn method_at(station: Station, d: u8) -> u8
    requires { station.older ≤ station.stored }
    ensures { result ≡ rule.method_at station d }
{
    if station.stored - station.older <= d {
        station.former
    } else {
        station.method
    }
}

// The bytes of that block.
fn stored_bytes(w: u8, station: Station, store: &[u8], d: u8) -> &[u8]
    requires { Stored w station (length store.now) d }
    ensures { result.now ≡ ring.bytes_at w station store.now d }
{
    let cell = back(w, station.cell, d) as usize;
    let start = cell * CELL;
    &store[start..start + station.lengths[cell] as usize]
}

// What a refusal of the writer carries. Of clear text alone under method 3 or 4, from a block of at most 4,095 bytes, it asks question 6
// and no other: the bytes needed.
fn value_of(refusal: WriteRefusal) -> usize
    ensures { result ≡ write_value refusal }
{
    match refusal {
        WriteRefusal::OutputShort(needed) => needed,
        WriteRefusal::HeaderByte(place) => place.0,
        WriteRefusal::TextByte(place) => place.0,
        WriteRefusal::CodeNotCarried => 0,
        WriteRefusal::NotCarried => 0,
        WriteRefusal::PartNotEmpty => 0,
        WriteRefusal::TooManyCounted => 0,
    }
}

// Writes the line of the named block, shape 4 with ETX, under the block's own method.
pub fn send(
    n: u8,
    w: u8,
    station: Station,
    store: &[u8],
    number: u8,
    out: &mut [u8],
) -> Result<usize, SenderRefusal>
    ensures { called (sent_of result) out.new ≡ rule.send_call n w station store.now number out.old }
{
    ask_number(n, w, station, store.len(), number)?;
    let d = submitted_after(n, station.next, number);
    let parts = Parts {
        shape: Shape::ClearText,
        end: EndSign::Etx,
        header: &[],
        text: stored_bytes(w, station, store, d),
    };
    match write_block(link_of(method_at(station, d)), &parts, &mut *out) {
        Ok(len) => Ok(len),
        Err(refusal) => Err(SenderRefusal::TooShort(value_of(refusal))),
    }
}
