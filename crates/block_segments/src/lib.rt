// A segment of a framed line, byte by byte: what is neither fill nor the first DLE of a pair (rule `kept_bytes` of crate
// block_framing) is summed, or copied to an output. Each function takes every input.
#![tactic(auto)]

use block::Code;

// A segment: its code, its bytes, how many of them it is said to keep, and whether it is clear text.
#[derive(Clone, Copy)]
pub struct Segment<'a> {
    pub code: Code,
    pub bytes: &'a [u8],
    pub kept: usize,
    pub clear: bool,
}

mod copy;
mod kept;
mod sum;

pub use copy::{copy_both, copy_kept};
pub use kept::{Keeping, is_kept};
pub use sum::sum_kept;
