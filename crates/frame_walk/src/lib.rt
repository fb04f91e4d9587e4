// One walk over the bits of a frame (document 01, part 4): questions 31 to 33, how many bits content and check have, and the register
// of the check after them. `walk_frame` takes every input.
#![tactic(auto)]

ghost use Rattle.std.specs.Prelude.{◌+◌, ◌*◌, ◌^◌, ◌<◌, ◌≤◌, length};

// The place of the closing flag, how many bits content and check have, and the register of the check after them.
#[derive(Clone, Copy, Debug)]
pub struct Walk {
    pub end: usize,
    pub count: usize,
    pub register: u32,
}

// The bytes lent, and the place of the closing flag in them, behind the opening one.
#[derive(Clone, Copy)]
pub(crate) struct Line<'a> {
    pub lent: &'a [u8],
    pub end: usize,
    ghost opened: { 8 ≤ end },
    ghost closed: { end + 8 ≤ 8 * length lent.now },
    ghost end_small: { end + 8 < 2 ^ 64 },
}

mod pass;
mod questions;

pub use questions::walk_frame;
