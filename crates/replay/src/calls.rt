// The calls of the two readers.
ghost use Rattle.std.specs.Prelude.{◌≡◌};
ghost use Rattle.bits.specs.Calls.{called};
ghost use Rattle.replay.specs.Replay as rule;
ghost use Rattle.replay.specs.Answers.{answer_of};

use crate::events::replay;
use crate::questions::ask_trace;
use crate::records::last_notes;
use crate::{PanelReading, ReplayRefusal, ServiceReading};

// For the panel's reader: the station's record and the awaited number at the end. Of each record bytes 0 to 3 alone are read.
pub fn replay_panel(
    n: u8,
    w: u8,
    trace: &[u8],
    store: &mut [u8],
) -> Result<PanelReading, ReplayRefusal>
    ensures { called (answer_of result) store.new ≡ rule.panel_call n w trace.now store.old }
{
    ask_trace(n, w, store.len(), trace)?;
    Ok(replay(n, w, trace, store))
}

// For the service reader: the same, and bytes 4 to 15 of the last record.
pub fn replay_service(
    n: u8,
    w: u8,
    trace: &[u8],
    store: &mut [u8],
) -> Result<ServiceReading, ReplayRefusal>
    ensures { called (answer_of result) store.new ≡ rule.service_call n w trace.now store.old }
{
    let reading = replay_panel(n, w, trace, store)?;
    Ok(ServiceReading {
        station: reading.station,
        c: reading.c,
        notes: last_notes(trace),
    })
}
