// The line of a block put together from its parts: `put_line` takes every input, and leaves out what has no room in the output.
#![tactic(auto)]

ghost use Rattle.std.specs.Prelude.{map};
ghost use Rattle.block.specs.Signs.{table_of};
ghost use Rattle.block.specs.Characters as characters;
ghost use Rattle.block.specs.Lent.{line_of_parts};
ghost use Rattle.block_store.specs.Store.{Stored};
ghost use Rattle.block_line.specs.Line.{text_bytes};

use block::{Code, Link, Parity, Parts, is_clear, is_seven};
use block_checks::written_check;
use block_signs::{end_signs, inner_signs, start_signs};
use block_store::{store_characters, store_clear, store_each};

// The text as the shape has it. The answer is the next place.
fn put_text(
    seven: bool,
    parity: Parity,
    clear: bool,
    text: &[u8],
    out: &mut [u8],
    at: usize,
) -> usize
    ensures { (code : Code) → Stored out.old at (map (characters.sent seven parity) (text_bytes (table_of code) clear text.now)) out.new result }
{
    if clear {
        return store_clear(seven, parity, text, &mut *out, at);
    }
    store_characters(seven, parity, text, &mut *out, at)
}

// The whole line from the start of the output on.
pub fn put_line(link: Link, parts: &Parts<'_>, out: &mut [u8]) -> usize
    ensures { Stored out.old 0 (line_of_parts link parts.now) out.new result }
{
    let parity = link.parity;
    let seven = is_seven(link.method);
    let clear = is_clear(parts.shape);
    let check = written_check(link, parts);
    let start_signs = start_signs(parts.shape);
    let start = store_each(seven, parity, start_signs.as_slice(), &mut *out, 0);
    let head = store_characters(seven, parity, parts.header, &mut *out, start);
    let inner_signs = inner_signs(parts.shape);
    let inner = store_each(seven, parity, inner_signs.as_slice(), &mut *out, head);
    let body = put_text(seven, parity, clear, parts.text, &mut *out, inner);
    let end_signs = end_signs(link.code, clear, parts.end);
    let ending = store_each(seven, parity, end_signs.as_slice(), &mut *out, body);
    store_each(false, parity, check.as_slice(), &mut *out, ending)
}
