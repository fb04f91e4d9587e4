// The record after a call.
ghost use Rattle.std.specs.Prelude.{◌≡◌, ◌<◌, ◌≤◌};
ghost use Rattle.sender.specs.Sender as rule;
ghost use Rattle.sender.specs.Right.{Right};

use crate::Station;
use crate::ring::{modulus, next};
use orders::{CyclicMethod, byte_of};

// One more block, of this length.
pub(crate) fn with_block(n: u8, w: u8, station: Station, len: u16) -> Station
    requires right { Right n w station }
    requires room { station.stored < w }
    ensures { result ≡ rule.with_block n w station len }
{
    let mut lengths = station.lengths;
    lengths[station.cell as usize] = len;
    Station {
        next: next(modulus(n), station.next),
        stored: station.stored + 1,
        cell: next(w, station.cell),
        lengths,
        method: station.method,
        former: station.former,
        older: station.older,
    }
}

// Only the latest blocks, so many.
pub(crate) fn with_latest(station: Station, left: u8) -> Station
    requires few { left ≤ station.stored }
    ensures { result ≡ rule.with_latest station left }
{
    let freed = station.stored - left;
    let mut after = station;
    after.stored = left;
    after.older = station.older.saturating_sub(freed);
    after
}

// The stored blocks stay under their methods, and later ones go under this.
pub(crate) fn with_method(station: Station, method: CyclicMethod) -> Station
    ensures { result ≡ rule.with_method station method }
{
    let mut after = station;
    after.method = byte_of(method);
    after.former = station.method;
    after.older = station.stored;
    after
}
