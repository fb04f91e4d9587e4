// What the events of a trace do.
ghost use Rattle.std.specs.Prelude.{◌≡◌};
ghost use Rattle.replay.specs.Replay as rule;
ghost use Rattle.replay.specs.Answers.{state_of};

use crate::questions::fresh;
use crate::records::event_of;
use crate::{Event, PanelReading, RECORD};
use number::{NumberRecord, receive};
use sender::{acknowledge, submit_zeros};

// One event. A refused call leaves what its contract says, and is no end.
fn replay_event(n: u8, w: u8, state: PanelReading, store: &mut [u8], event: Event) -> PanelReading
    ensures { state_of result store.new ≡ rule.after_event n w (state_of state store.old) event }
{
    let mut after = state;
    match event.kind {
        1 => after.station = submit_zeros(n, w, state.station, &mut *store, event.len).after,
        2 => after.station = acknowledge(n, w, state.station, store, event.number).after,
        3 => {
            let held = NumberRecord { n, w, c: state.c };
            after.c = receive(held, event.number).after.c;
        }
        // No event: 62 was asked before.
        _ => {}
    }
    after
}

// The events of every record in turn, from a fresh station and c = 0.
pub(crate) fn replay(n: u8, w: u8, trace: &[u8], store: &mut [u8]) -> PanelReading
    ensures { state_of result store.new ≡ rule.end_state n w trace.now store.old }
{
    let mut state = PanelReading {
        station: fresh(),
        c: 0,
    };
    let mut rest = trace;
    while let Some((bytes, behind)) = rest.split_first_chunk::<RECORD>() {
        state = replay_event(n, w, state, &mut *store, event_of(bytes));
        rest = behind;
    }
    state
}
