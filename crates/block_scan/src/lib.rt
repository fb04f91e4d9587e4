// Runs of data: how many bytes of a part, from its start on, are data of header and plain text (`plain_run`), or of a field
// (`data_run`). Sixteen bytes are passed over at once as long as all of them are data, then byte by byte. Each takes every input.
#![tactic(auto)]

mod clear;
mod dkoi;
mod field;
mod off;
mod plain;

pub use field::data_run;
pub use plain::plain_run;
