// Interleaving (document 02, card 8): a text of n bytes is laid in rows of d and sent by columns, so that damage to neighbouring bytes
// of the line is spread over the text. `interleave` makes the line of a text, `deinterleave` the text of a line, both in a lent output.
// Every d and every length is taken. What does not pass a question is refused with document 02's number and leaves every byte of the
// output; a success changes only its first n bytes.
#![tactic(auto)]

ghost use Rattle.std.specs.Prelude.{◌≡◌};
ghost use Rattle.interleave.specs.Answers.{number_of};

#[derive(Clone, Copy)]
pub enum InterleaveRefusal {
    // 59: d is 0
    NoRows,
    // 60: the output is shorter than the text or the line
    OutputShort,
}

// Document 02's number of a refusal.
impl From<InterleaveRefusal> for u32 {
    ghost from_gives = { λ refusal number. number ≡ number_of refusal };

    fn from(refusal: InterleaveRefusal) -> u32 {
        match refusal {
            InterleaveRefusal::NoRows => 59,
            InterleaveRefusal::OutputShort => 60,
        }
    }
}

mod calls;
mod columns;

pub use calls::{deinterleave, interleave};
