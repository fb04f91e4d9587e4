// The questions of the calls, in turn.
ghost use Rattle.std.specs.Prelude.{◌≡◌, ◌≤◌, nat_le};
ghost use Rattle.std.specs.List.{list_all};
ghost use Rattle.sender.specs.Sender as rule;
ghost use Rattle.sender.specs.Answers.{after_asked};

use crate::ring::{modulus, submitted_after};
use crate::{SenderRefusal, Station};
use orders::is_method;

// The bytes of a cell, and the most that a block may have.
pub(crate) const CELL: usize = 4096;

const LONGEST: usize = 4095;

fn window_right(n: u8, w: u8) -> bool
    requires { n ≤ 7 }
    ensures { result ≡ rule.window_right n w }
{
    (1 <= w) & (w <= 7) & (w < modulus(n))
}

fn lengths_right(station: Station) -> bool
    ensures { result ≡ list_all (λ len. nat_le len 4095) station.lengths }
{
    station.lengths.iter().all(|len| *len as usize <= LONGEST)
}

fn record_right(n: u8, w: u8, station: Station) -> bool
    requires { n ≤ 7 }
    ensures { result ≡ rule.record_right n w station }
{
    (station.stored <= w)
        & (station.cell < w)
        & (station.next < modulus(n))
        & lengths_right(station)
        & (station.older <= station.stored)
        & is_method(station.method)
        & is_method(station.former)
}

// 41 and 51.
fn ask_record(n: u8, w: u8, station: Station) -> Result<(), SenderRefusal>
    ensures { (next : rule.Verdict) → after_asked result next ≡ rule.of_record n w station next }
{
    if n < 1 || 7 < n {
        return Err(SenderRefusal::Modulus);
    }
    if !window_right(n, w) {
        return Err(SenderRefusal::Record);
    }
    if !record_right(n, w, station) {
        return Err(SenderRefusal::Record);
    }
    Ok(())
}

// 41, 51 and 6, which the calls ask first.
pub fn ask_store(n: u8, w: u8, station: Station, size: usize) -> Result<(), SenderRefusal>
    ensures { (next : rule.Verdict) → after_asked result next ≡ rule.of_record n w station (rule.of_store w size next) }
{
    ask_record(n, w, station)?;
    let needed = w as usize * CELL;
    if size < needed {
        return Err(SenderRefusal::TooShort(needed));
    }
    Ok(())
}

// 41, 51, 6, 57 and 55.
pub(crate) fn ask_submission(
    n: u8,
    w: u8,
    station: Station,
    size: usize,
    len: usize,
) -> Result<(), SenderRefusal>
    ensures { after_asked result rule.clear ≡ rule.of_submission n w station size len }
{
    ask_store(n, w, station, size)?;
    if LONGEST < len {
        return Err(SenderRefusal::TooLong);
    }
    if w <= station.stored {
        return Err(SenderRefusal::Full);
    }
    Ok(())
}

// 41, 51, 6 and 56.
pub(crate) fn ask_number(
    n: u8,
    w: u8,
    station: Station,
    size: usize,
    number: u8,
) -> Result<(), SenderRefusal>
    ensures { after_asked result rule.clear ≡ rule.of_number n w station size number }
{
    ask_store(n, w, station, size)?;
    if modulus(n) <= number {
        return Err(SenderRefusal::NotStored);
    }
    if station.stored <= submitted_after(n, station.next, number) {
        return Err(SenderRefusal::NotStored);
    }
    Ok(())
}

// 41, 51 and 67.
pub(crate) fn ask_order(n: u8, w: u8, station: Station) -> Result<(), SenderRefusal>
    ensures { after_asked result rule.clear ≡ rule.of_order n w station }
{
    ask_record(n, w, station)?;
    if station.older != 0 {
        return Err(SenderRefusal::OrderPending);
    }
    Ok(())
}
