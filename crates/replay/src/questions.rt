// The questions about a trace, in turn.
ghost use Rattle.std.specs.Prelude.{◌≡◌};
ghost use Rattle.sender.specs.Sender.{clear};
ghost use Rattle.sender.specs.History as history;
ghost use Rattle.replay.specs.Replay as rule;
ghost use Rattle.replay.specs.Answers.{after_asked};

use crate::{RECORD, ReplayRefusal};
use sender::{Station, ask_store};

pub(crate) fn fresh() -> Station
    ensures { result ≡ history.fresh }
{
    Station {
        next: 0,
        stored: 0,
        cell: 0,
        lengths: [0; 7],
        method: 0,
        former: 0,
        older: 0,
    }
}

// 62.
fn ask_events(trace: &[u8]) -> Result<(), ReplayRefusal>
    ensures { after_asked result clear ≡ rule.of_events 0 (rule.trace_events trace.now) clear }
{
    let mut index: usize = 0;
    let mut rest = trace;
    while let Some((bytes, behind)) = rest.split_first_chunk::<RECORD>() {
        let kind = bytes[0];
        if kind < 1 || 3 < kind {
            return Err(ReplayRefusal::UnknownEvent(index));
        }
        index += 1;
        rest = behind;
    }
    Ok(())
}

// 41, 51, 6, 61 and 62.
pub(crate) fn ask_trace(n: u8, w: u8, size: usize, trace: &[u8]) -> Result<(), ReplayRefusal>
    ensures { after_asked result clear ≡ rule.of_trace n w size trace.now }
{
    ask_store(n, w, fresh(), size)?;
    if trace.len() % RECORD != 0 {
        return Err(ReplayRefusal::TraceLength);
    }
    ask_events(trace)
}
