// Replay for C.
ghost use Rattle.std.specs.Prelude.{◌≡◌, []};
ghost use Rattle.replay.specs.Answers.{number_of, value_of};
ghost use Rattle.corridor.specs.Calls.{replay_called, replay_panel_call, replay_service_call};

use replay::{ReplayRefusal, replay_panel, replay_service};
use replay_answers::replay_refused;
use sender::Station;

// The number of a refusal, and its value.
fn refused(refusal: ReplayRefusal, value: &mut usize) -> u32
    ensures number { result ≡ number_of refusal }
    ensures value { value.new ≡ value_of refusal }
{
    let numbers = replay_refused(refusal);
    *value = numbers.value;
    numbers.number
}

// Replays a trace for the panel's reader. After a refusal record and c are as they were, and the value is the needed bytes or the index
// of the record that it carries.
#[unsafe(no_mangle)]
pub extern "C" fn corridor_replay_panel(
    n: u8,
    w: u8,
    trace: &[u8],
    store: &mut [u8],
    station: &mut Station,
    c: &mut u8,
    value: &mut usize,
) -> u32
    ensures { replay_called result value.new station.new c.new [] store.new ≡ replay_panel_call n w trace.now store.old station.old c.old }
{
    match replay_panel(n, w, trace, &mut *store) {
        Ok(reading) => {
            *station = reading.station;
            *c = reading.c;
            *value = 0;
            0
        }
        Err(refusal) => refused(refusal, &mut *value),
    }
}

// Replays a trace for the service reader. After a refusal the notes are as they were too.
#[unsafe(no_mangle)]
pub extern "C" fn corridor_replay_service(
    n: u8,
    w: u8,
    trace: &[u8],
    store: &mut [u8],
    station: &mut Station,
    c: &mut u8,
    notes: &mut [u8; 12],
    value: &mut usize,
) -> u32
    ensures { replay_called result value.new station.new c.new notes.new store.new ≡ replay_service_call n w trace.now store.old station.old c.old notes.old }
{
    match replay_service(n, w, trace, &mut *store) {
        Ok(reading) => {
            *station = reading.station;
            *c = reading.c;
            let last = reading.notes;
            *notes = last;
            *value = 0;
            0
        }
        Err(refusal) => refused(refusal, &mut *value),
    }
}
