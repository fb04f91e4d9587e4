// The calls, and their questions in turn.
ghost use Rattle.std.specs.Prelude.{◌≡◌, ◌++◌, ◌≤◌, length, drop};
ghost use Rattle.bits.specs.Calls.{called};
ghost use Rattle.interleave.specs.Interleave as rule;
ghost use Rattle.interleave.specs.Calls.{asking, interleave_call, deinterleave_call};
ghost use Rattle.interleave.specs.Answers.{verdict_of};

use crate::InterleaveRefusal;
use crate::columns::{put_columns, take_columns};

// 59 and 60, for n bytes and an output of `room`.
fn ask(d: usize, n: usize, room: usize) -> Result<(), InterleaveRefusal>
    ensures { verdict_of result ≡ asking d n room }
{
    if d < 1 {
        return Err(InterleaveRefusal::NoRows);
    }
    if room < n {
        return Err(InterleaveRefusal::OutputShort);
    }
    Ok(())
}

// A text of at most one row is its own line.
fn put_line(d: usize, text: &[u8], out: &mut [u8])
    requires d_least { 1 ≤ d }
    requires room { length text.now ≤ length out.old }
    ensures { out.new ≡ rule.interleave d text.now ++ drop (length text.now) out.old }
{
    if text.len() <= d {
        out[..text.len()].copy_from_slice(text);
    } else {
        put_columns(d, text, &mut *out);
    }
}

// A line of at most one row is its own text.
fn put_text(d: usize, line: &[u8], out: &mut [u8])
    requires d_least { 1 ≤ d }
    requires room { length line.now ≤ length out.old }
    ensures { out.new ≡ rule.deinterleave d line.now ++ drop (length line.now) out.old }
{
    if line.len() <= d {
        out[..line.len()].copy_from_slice(line);
    } else {
        take_columns(d, line, &mut *out);
    }
}

// The line of a text.
pub fn interleave(d: usize, text: &[u8], out: &mut [u8]) -> Result<(), InterleaveRefusal>
    ensures { called (verdict_of result) out.new ≡ interleave_call d text.now out.old }
{
    match ask(d, text.len(), out.len()) {
        Ok(()) => {
            put_line(d, text, &mut *out);
            Ok(())
        }
        Err(refusal) => Err(refusal),
    }
}

// The text of a line.
pub fn deinterleave(d: usize, line: &[u8], out: &mut [u8]) -> Result<(), InterleaveRefusal>
    ensures { called (verdict_of result) out.new ≡ deinterleave_call d line.now out.old }
{
    match ask(d, line.len(), out.len()) {
        Ok(()) => {
            put_text(d, line, &mut *out);
            Ok(())
        }
        Err(refusal) => Err(refusal),
    }
}
