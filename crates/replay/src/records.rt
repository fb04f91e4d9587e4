// What the records of a trace hold.
ghost use Rattle.std.specs.Prelude.{◌≡◌};
ghost use Rattle.replay.specs.Replay as rule;

use crate::{Event, RECORD};

// Bytes 4 to 15 are not read.
pub(crate) fn event_of(bytes: &[u8; RECORD]) -> Event
    ensures { result ≡ rule.event_of bytes.now }
{
    Event {
        kind: bytes[0],
        number: bytes[1],
        len: bytes[2] as usize * 256 + bytes[3] as usize,
    }
}

// Bytes 4 to 15 of the last record, zeros if there is none.
pub(crate) fn last_notes(trace: &[u8]) -> [u8; 12]
    ensures { result ≡ rule.last_notes trace.now }
{
    let mut notes = [0u8; 12];
    if let Some((_, bytes)) = trace.split_last_chunk::<RECORD>() {
        notes.copy_from_slice(&bytes[4..]);
    }
    notes
}
