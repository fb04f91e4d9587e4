// The check of a block to be written, over its parts: header, inner start, text and end sign. It takes every input.
#![tactic(auto)]

ghost use Rattle.std.specs.Prelude.{◌≡◌};
ghost use Rattle.bits.specs.Bytes.{pack};
ghost use Rattle.block.specs.Signs.{table_of};
ghost use Rattle.block.specs.Lent.{check_of_parts};
ghost use Rattle.block_check.specs.Numbers.{start_of, number_after};
ghost use Rattle.block_checks.specs.Checked.{checked_bytes};

use block::{Link, Parts, end_byte};
use block_check::{add_one, add_run, check_from, start_of};
use block_signs::{FewBytes, inner_signs};

// The number of the counted bytes, without their parity bits.
fn written_number(link: Link, parts: &Parts<'_>) -> u16
    ensures { result ≡ number_after link.method (start_of link.method) (checked_bytes (table_of link.code) parts.now.shape parts.now.end parts.now.header.now parts.now.text.now) }
{
    let m = link.method;
    let inner = inner_signs(parts.shape);
    let after_header = add_run(m, start_of(m), parts.header);
    let after_inner = add_run(m, after_header, inner.as_slice());
    let after_text = add_run(m, after_inner, parts.text);
    add_one(m, after_text, end_byte(link.code, parts.end))
}

// The check of every method: none, one byte or two.
pub fn written_check(link: Link, parts: &Parts<'_>) -> FewBytes
    ensures { result ≡ pack (check_of_parts link parts.now) }
{
    check_from(link, written_number(link, parts))
}
