// An order of another method.
ghost use Rattle.std.specs.Prelude.{◌≡◌};
ghost use Rattle.sender.specs.Sender as rule;
ghost use Rattle.sender.specs.Answers.{outcome_of};

use crate::calls::refused;
use crate::questions::ask_order;
use crate::records::with_method;
use crate::{SenderResult, Station};
use orders::CyclicMethod;

// Puts later submissions under another method, and answers the number of the first of them.
pub fn order(n: u8, w: u8, station: Station, method: CyclicMethod) -> SenderResult
    ensures { outcome_of result ≡ rule.ordering n w station method }
{
    match ask_order(n, w, station) {
        Ok(()) => SenderResult {
            answer: Ok(station.next),
            after: with_method(station, method),
        },
        Err(refusal) => refused(station, refusal),
    }
}
