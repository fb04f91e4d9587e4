// A block is told by its number beside its line.
ghost use Rattle.std.specs.Prelude.{◌≡◌, ◌+◌, ◌%◌, ◌^◌, length};
ghost use Rattle.bits.specs.Calls.{called};
ghost use Rattle.receiver.specs.Receiver as rule;
ghost use Rattle.receiver.specs.Answers.{after_telling, block_call, block_outcome};

use crate::judging::{awaiting, judge};
use crate::{BlockRefusal, BlockResult, Receiver, Told};
use block_reader::read_block;
use number::Verdict;
use orders::link_of;

// The record stays.
fn unmoved(receiver: Receiver, answer: Result<Told, BlockRefusal>) -> BlockResult
    ensures { block_outcome result ≡ block_outcome (record { answer = answer; after = receiver }) }
{
    BlockResult {
        answer,
        after: receiver,
    }
}

// Reads the line of a new block; c is the number that is awaited then.
fn read_line(receiver: Receiver, c: u8, line: &[u8], out: &mut [u8]) -> BlockResult
    requires moved { c ≡ (receiver.c + 1) % 2 ^ receiver.n }
    ensures { called (block_outcome result) out.new ≡ after_telling (rule.reading_line receiver line.now (length out.old)) out.old }
{
    match read_block(link_of(receiver.method), line, &mut *out) {
        Ok(block) => BlockResult {
            answer: Ok(Told::New(block)),
            after: awaiting(receiver, c, receiver.waiting, receiver.number),
        },
        Err(refusal) => unmoved(receiver, Err(BlockRefusal::Line(refusal))),
    }
}

// Judges a block by its number, and reads the line of what is new.
pub fn tell_block(receiver: Receiver, number: u8, line: &[u8], out: &mut [u8]) -> BlockResult
    ensures { called (block_outcome result) out.new ≡ block_call receiver number line.now out.old }
{
    match judge(receiver, number) {
        Ok(judged) => match judged.verdict {
            Verdict::New => read_line(receiver, judged.c, line, &mut *out),
            Verdict::Repeat => unmoved(receiver, Ok(Told::Repeat)),
            Verdict::Lost => unmoved(receiver, Ok(Told::Lost)),
        },
        Err(refusal) => unmoved(receiver, Err(BlockRefusal::Receiver(refusal))),
    }
}
