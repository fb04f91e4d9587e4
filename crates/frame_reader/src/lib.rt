// Reading a frame (document 01, part 4): `read_frame` judges the bits of a frame and hands out its content. It takes every input. A
// refusal carries document 01's number and leaves every byte of the output; a success changes only the bytes of the content, and leaves the
// spare high bits of the last one zero.
#![tactic(auto)]

mod content;
mod read;

pub use read::read_frame;
