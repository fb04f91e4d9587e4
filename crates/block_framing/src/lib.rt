// The framing of a block's line (document 01, part 3, and the questions up to 17): `find_framing` judges every byte by its sign and
// field and hands on where header, inner start and text begin and end, or the first refusal. It takes every input.
#![tactic(auto)]

use block::{EndSign, Shape};

// The first inner start: its place, and how many bytes were left out before it.
#[derive(Clone, Copy)]
pub(crate) struct FirstInnerStart {
    pub at: usize,
    pub before: usize,
}

// What the walk keeps of the marks: the first inner start, and how many bytes were left out in all.
#[derive(Clone, Copy)]
pub(crate) struct LeftOuts {
    pub inner: Option<FirstInnerStart>,
    pub all: usize,
}

// What the walk hands on: shape and end sign; the places of the header (from `head` up to `inner`), of the inner start (up to
// `body`) and of the text (up to `tail`); the lengths of header and text without fill; the counted number; and the place after
// the end sign.
#[derive(Clone, Copy)]
pub struct Segments {
    pub shape: Shape,
    pub end: EndSign,
    pub head: usize,
    pub inner: usize,
    pub body: usize,
    pub tail: usize,
    pub header: usize,
    pub text: usize,
    pub counted: usize,
    pub after: usize,
}

mod ending;
mod questions;
mod walk;

pub use questions::find_framing;
