// The number that a check adds up over bytes. The methods are a closed list, and each match shows its five cases side by side, as the
// papers do; a trait with a type for each method would spread them.
ghost use Rattle.std.specs.Prelude.{◌≡◌, false, [], ◌∷◌};
ghost use Rattle.block.specs.Signs.{table_of};
ghost use Rattle.block.specs.Characters.{is_seven};
ghost use Rattle.block_framing.specs.Framings.{kept_bytes};
ghost use Rattle.block_segments.specs.Segment.{kept_in};
ghost use Rattle.block_check.specs.Numbers.{start_of, number_after};

use block::{Code, Method, sum_slice};
use block_diagonals::{add_both, add_both_kept};
use block_register::enter_kept;
use block_segments::{Segment, sum_kept};
use ccitt16::Ccitt16;
use cyclic::Cyclic;
use cyclic3::Cyclic3;
use cyclic4::Cyclic4;
use generator16::{enter_one, enter_run};
use ibm16::Ibm16;

// The number before any byte.
pub fn start_of(m: Method) -> u16
    ensures { result ≡ start_of m }
{
    match m {
        Method::Parity => 0,
        Method::Matrix => 0,
        Method::Cyclic => {
            let cyclic = Cyclic3::new();
            cyclic.register
        }
        Method::CyclicAlternative => {
            let cyclic = Cyclic4::new();
            cyclic.register
        }
        Method::Diagonal => 0,
    }
}

// A byte added.
pub fn add_one(m: Method, number: u16, b: u8) -> u16
    ensures { result ≡ number_after m number (b ∷ []) }
{
    match m {
        Method::Parity => number,
        Method::Matrix => number ^ (b as u16),
        Method::Cyclic => enter_one::<Ccitt16>(number, b),
        Method::CyclicAlternative => enter_one::<Ibm16>(number, b),
        Method::Diagonal => add_both(number, &[b]),
    }
}

// A slice added.
pub fn add_run(m: Method, number: u16, run: &[u8]) -> u16
    ensures { result ≡ number_after m number run.now }
{
    match m {
        Method::Parity => number,
        Method::Matrix => number ^ (sum_slice(0, run) as u16),
        Method::Cyclic => enter_run::<Ccitt16>(number, run),
        Method::CyclicAlternative => enter_run::<Ibm16>(number, run),
        Method::Diagonal => add_both(number, run),
    }
}

// What a segment keeps, added.
fn add_kept(m: Method, number: u16, code: Code, clear: bool, part: &[u8]) -> u16
    ensures { result ≡ number_after m number (kept_bytes (table_of code) clear (is_seven m) false part.now) }
{
    match m {
        Method::Parity => number,
        Method::Matrix => number ^ (sum_kept(0, code, clear, part) as u16),
        Method::Cyclic => enter_kept::<Ccitt16>(number, code, clear, part),
        Method::CyclicAlternative => enter_kept::<Ibm16>(number, code, clear, part),
        Method::Diagonal => add_both_kept(number, code, clear, part),
    }
}

// A segment added.
pub fn add_segment(m: Method, number: u16, segment: &Segment<'_>) -> u16
    ensures { result ≡ number_after m number (kept_in (is_seven m) segment.now) }
{
    if segment.kept == segment.bytes.len() {
        return add_run(m, number, segment.bytes);
    }
    add_kept(m, number, segment.code, segment.clear, segment.bytes)
}
