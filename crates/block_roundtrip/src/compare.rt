// What was read beside what was written.
ghost use Rattle.std.specs.Prelude.{◌≡◌, ◌++◌, ◌+◌, ◌≤◌, length, take};
ghost use Rattle.std.specs.Bool.{Decides};
ghost use Rattle.block_roundtrip.specs.Returns.{BlockOf};

use block::{Block, Parts};

// Whether the output starts with header and text.
fn same_parts(header: &[u8], text: &[u8], out: &[u8]) -> bool
    requires { length header.now + length text.now ≤ length out.now }
    ensures { Decides result (take (length header.now + length text.now) out.now ≡ header.now ++ text.now) }
{
    let head = header.len();
    let end = head + text.len();
    if header != &out[..head] {
        return false;
    }
    text == &out[head..end]
}

// Whether the block read is that of the parts written.
pub(crate) fn same_block(b: Block, parts: &Parts<'_>, out: &[u8]) -> bool
    requires { length parts.now.header.now + length parts.now.text.now ≤ length out.now }
    ensures { Decides result (BlockOf parts.now.shape parts.now.end parts.now.header.now parts.now.text.now b out.now) }
{
    let header = parts.header;
    let text = parts.text;
    if b.shape != parts.shape {
        return false;
    }
    if b.end != parts.end {
        return false;
    }
    if b.header != header.len() {
        return false;
    }
    if b.text != text.len() {
        return false;
    }
    same_parts(header, text, out)
}
