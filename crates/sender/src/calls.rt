// The calls: on a record by value, and on one that is lent.
ghost use Rattle.std.specs.Prelude.{◌≡◌, ◌*◌, ◌<◌, length, replicate};
ghost use Rattle.bits.specs.Calls.{called};
ghost use Rattle.sender.specs.Sender as rule;
ghost use Rattle.sender.specs.Answers.{told, outcome_of};
ghost use Rattle.sender.specs.Right.{Right};

use crate::questions::{CELL, ask_number, ask_submission};
use crate::records::{with_block, with_latest};
use crate::ring::submitted_after;
use crate::{SenderRefusal, SenderResult, Station};

// A refused call leaves the record.
pub(crate) fn refused(station: Station, refusal: SenderRefusal) -> SenderResult
    ensures { outcome_of result ≡ told (Err refusal) station }
{
    SenderResult {
        answer: Err(refusal),
        after: station,
    }
}

// Where the next cell begins in the store.
fn cell_start(station: Station) -> usize
    ensures { result ≡ station.cell * 4096 }
{
    station.cell as usize * CELL
}

// A block of this length has gone into its cell: its number, and the record with it.
fn stored(n: u8, w: u8, station: Station, len: u16) -> SenderResult
    requires right { Right n w station }
    requires room { station.stored < w }
    ensures { outcome_of result ≡ rule.storing n w station len }
{
    SenderResult {
        answer: Ok(station.next),
        after: with_block(n, w, station, len),
    }
}

// Copies a block into the next cell and answers its number.
pub fn submit(n: u8, w: u8, station: Station, store: &mut [u8], block: &[u8]) -> SenderResult
    ensures { called (outcome_of result) store.new ≡ rule.submit_call n w station store.old block.now }
{
    match ask_submission(n, w, station, store.len(), block.len()) {
        Ok(()) => {
            let start = cell_start(station);
            store[start..start + block.len()].copy_from_slice(block);
            stored(n, w, station, block.len() as u16)
        }
        Err(refusal) => refused(station, refusal),
    }
}

// `submit` of a block of so many zero bytes, which nobody has to lend.
pub fn submit_zeros(n: u8, w: u8, station: Station, store: &mut [u8], len: usize) -> SenderResult
    ensures { called (outcome_of result) store.new ≡ rule.submit_call n w station store.old (replicate len 0) }
{
    match ask_submission(n, w, station, store.len(), len) {
        Ok(()) => {
            let start = cell_start(station);
            store[start..start + len].fill(0);
            stored(n, w, station, len as u16)
        }
        Err(refusal) => refused(station, refusal),
    }
}

// Frees the named block and all before it, and answers how many. Its questions serve `send` too, and made as a call of its own it took
// twice the time.
#[inline]
pub fn acknowledge(n: u8, w: u8, station: Station, store: &[u8], number: u8) -> SenderResult
    ensures { outcome_of result ≡ rule.acknowledging n w station (length store.now) number }
{
    match ask_number(n, w, station, store.len(), number) {
        Ok(()) => {
            let left = submitted_after(n, station.next, number);
            SenderResult {
                answer: Ok(station.stored - left),
                after: with_latest(station, left),
            }
        }
        Err(refusal) => refused(station, refusal),
    }
}

// `submit` on a record that stays with the line driver.
pub fn submit_to(
    n: u8,
    w: u8,
    station: &mut Station,
    store: &mut [u8],
    block: &[u8],
) -> Result<u8, SenderRefusal>
    ensures { called (told result station.new) store.new ≡ rule.submit_call n w station.old store.old block.now }
{
    let submitted = submit(n, w, *station, &mut *store, block);
    *station = submitted.after;
    submitted.answer
}

// `acknowledge` on a record that stays with the line driver.
pub fn acknowledge_to(
    n: u8,
    w: u8,
    station: &mut Station,
    store: &[u8],
    number: u8,
) -> Result<u8, SenderRefusal>
    ensures { told result station.new ≡ rule.acknowledging n w station.old (length store.now) number }
{
    let acknowledged = acknowledge(n, w, *station, store, number);
    *station = acknowledged.after;
    acknowledged.answer
}
