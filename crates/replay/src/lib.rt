// Replay of a recorded line (document 02, card 9). A trace is records of 16 bytes, with no header: an event, a number, a length, then
// milliseconds and service notes. The sender and the number check are run again from fresh, over the events in order, and the readers
// are answered what the station's record and the awaited number are at the end. Every input is taken: a trace that does not pass a
// question is refused with document 02's number, and the lent store keeps every byte. A submission, an acknowledgement or a number
// that is refused on the way alters nothing, and replay goes on.
#![tactic(auto)]

ghost use Rattle.std.specs.Prelude.{◌≡◌};
ghost use Rattle.replay.specs.declared.ReplayRefusal.TheVariants.{Sender};

use sender::{SenderRefusal, Station};

// Bytes of a record.
pub(crate) const RECORD: usize = 16;

// What a record tells replay: the event, 1 submitted, 2 acknowledged or 3 received, the number and the length.
#[derive(Clone, Copy)]
pub(crate) struct Event {
    pub(crate) kind: u8,
    pub(crate) number: u8,
    pub(crate) len: usize,
}

// What the panel's reader is answered: the record of the station and the awaited number.
#[derive(Clone, Copy)]
pub struct PanelReading {
    pub station: Station,
    pub c: u8,
}

// What the service reader is answered: the same, and bytes 4 to 15 of the last record, zeros if there is none.
#[derive(Clone, Copy)]
pub struct ServiceReading {
    pub station: Station,
    pub c: u8,
    pub notes: [u8; 12],
}

#[derive(Clone, Copy)]
pub enum ReplayRefusal {
    // 41, 51 and 6, as the sender asks them
    Sender(SenderRefusal),
    // 61: the length is no multiple of 16
    TraceLength,
    // 62: an event is none of 1, 2 and 3; the index of the first such record
    UnknownEvent(usize),
}

impl From<SenderRefusal> for ReplayRefusal {
    ghost from_gives = { λ refusal replayed. replayed ≡ Sender refusal };

    fn from(refusal: SenderRefusal) -> ReplayRefusal {
        ReplayRefusal::Sender(refusal)
    }
}

mod calls;
mod events;
mod questions;
mod records;

pub use calls::{replay_panel, replay_service};
