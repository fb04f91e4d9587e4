// The ends of a line over the bytes lent: whether a flag stands at a place, and the last bits before the closing flag, fewer than eight.
// Every function takes every input; for a reader that fits `read_last` gives what the rule gives.
#![tactic(auto)]

// The bits of content and check that are left, the pending ones in front: how many, and the number that holds them.
#[derive(Clone, Copy)]
pub struct LastRead {
    pub bits: u32,
    pub held: u32,
}

mod flag;
mod last;

pub use flag::is_flag;
pub use last::read_last;
