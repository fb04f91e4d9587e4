// What writing, reading back and comparing answer: the type and the rules that block_roundtrip and frame_roundtrip share, and laws of
// comparing.
#![tactic(auto)]

// Nothing to compare: the writer's refusal, or the reader's.
#[derive(Clone, Copy)]
pub enum RoundTripError<W, R> {
    NotWritten(W),
    NotRead(R),
}
