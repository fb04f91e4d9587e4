// Finding the framing of a frame (document 01, part 4): questions 31 to 33, 35 and 36, and whether the check is right. `find_framing` takes every
// input.
#![tactic(auto)]

// The place of the closing flag, how many bits content and check have, and whether the check is right.
#[derive(Clone, Copy, Debug)]
pub struct Body {
    pub end: usize,
    pub count: usize,
    pub right: bool,
}

mod find;

pub use find::find_framing;
