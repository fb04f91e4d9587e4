// The questions on the parts of a block to be written: 1, 4, 2, 3 and 5 in turn. They take every input.
#![tactic(auto)]

ghost use Rattle.std.specs.Prelude.{◌≡◌, cond, ◌&&◌, ◌||◌, ◌+◌, leb, eqb, length};
ghost use Rattle.block.specs.Signs.{table_of};
ghost use Rattle.block.specs.Limits.{counted_limit};
ghost use Rattle.block.specs.Scan.{first_failing};
ghost use Rattle.block.specs.Write as rule;
ghost use Rattle.block_parts.specs.Parts.{ask_parts, after_asked};

use block::{BytePlace, COUNTED_LIMIT, Code, Parts, Shape, WriteRefusal, is_clear};
use block_scan::plain_run;
use block_signs::inner_signs;

// Question 4: a part that the shape lacks is empty.
fn parts_fit(shape: Shape, header: usize, text: usize) -> bool
    ensures { result ≡ (rule.has_header shape || eqb header 0) && (rule.has_text shape || eqb text 0) }
{
    match shape {
        Shape::Header => text == 0,
        Shape::Text => header == 0,
        Shape::HeaderText => true,
        Shape::ClearText => header == 0,
        Shape::HeaderClearText => true,
    }
}

// Question 3: the first place of a text whose byte is not free, or the text's length. Clear text may hold every byte.
fn text_run(code: Code, seven: bool, clear: bool, text: &[u8]) -> usize
    ensures { result ≡ cond clear (length text.now) (first_failing (rule.is_free (table_of code) seven) 0 text.now) }
{
    if clear {
        text.len()
    } else {
        plain_run(code, false, seven, text)
    }
}

// Question 5: header, inner start, text and end sign are at most 4,096.
fn count_fits(shape: Shape, header: usize, text: usize) -> bool
    ensures { (code : Code) → result ≡ leb (header + length (rule.inner_signs (table_of code) shape) + text + 1) counted_limit }
{
    if header > COUNTED_LIMIT {
        return false;
    }
    if text > COUNTED_LIMIT {
        return false;
    }
    header + inner_signs(shape).len() + text + 1 <= COUNTED_LIMIT
}

// The questions of parts in methods 1, 2 and 7 (`seven`) or in 3 and 4.
pub fn ask_parts(code: Code, seven: bool, parts: &Parts<'_>) -> Result<(), WriteRefusal>
    ensures { (next : rule.WriteAnswer) → after_asked result next ≡ ask_parts (table_of code) seven parts.now.shape parts.now.header.now parts.now.text.now next }
{
    let shape = parts.shape;
    let header = parts.header;
    let text = parts.text;
    let clear = is_clear(shape);
    if seven & clear {
        return Err(WriteRefusal::NotCarried);
    }
    if !parts_fit(shape, header.len(), text.len()) {
        return Err(WriteRefusal::PartNotEmpty);
    }
    let head = plain_run(code, false, seven, header);
    if head < header.len() {
        return Err(WriteRefusal::HeaderByte(BytePlace(head)));
    }
    let body = text_run(code, seven, clear, text);
    if body < text.len() {
        return Err(WriteRefusal::TextByte(BytePlace(body)));
    }
    if !count_fits(shape, header.len(), text.len()) {
        return Err(WriteRefusal::TooManyCounted);
    }
    Ok(())
}
