// The answers of the calls in document 01's numbers, as the C library and the programs give them: 0 for success or the number of
// the refusal, and the values that go with it. Here are the types and rules of all, and the answers of the number check; those of
// blocks and frames are given in crates of their own.
#![tactic(auto)]

// Of an answer to reading a block: its number, and shape, end sign, lengths of header and text and the counted number; of a refusal
// its place or needed bytes, then zeros: five places, as C lends them.
#[derive(Clone, Copy)]
pub struct BlockNumbers {
    pub number: u32,
    pub values: [usize; 5],
}

// Of any other answer: its number, and what was written or read, or the refusal's place or needed bytes.
#[derive(Clone, Copy)]
pub struct ValueNumbers {
    pub number: u32,
    pub value: usize,
}

// Of a received number: the refusal's number or 0, and 1 for new, 2 for a repeat, 3 for lost or 0 for a refusal.
#[derive(Clone, Copy)]
pub struct VerdictNumbers {
    pub number: u32,
    pub verdict: u8,
}

ghost use Rattle.std.specs.Prelude.{◌≡◌};
ghost use Rattle.answers.specs.Numbers.{value_numbers};

mod verdicts;

pub use verdicts::received;

pub fn numbers(number: u32, value: usize) -> ValueNumbers
    ensures { result ≡ value_numbers number value }
{
    ValueNumbers { number, value }
}
