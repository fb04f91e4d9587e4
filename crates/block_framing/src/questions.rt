// The questions up to 17: code, length, parities, then the walk and what follows its end.
ghost use Rattle.std.specs.Prelude.{◌≡◌, ◌≤◌, length};
ghost use Rattle.block.specs.Limits.{line_limit};
ghost use Rattle.block_framing.specs.Framings.{of_walk, walked_for, framing_for};

use crate::Segments;
use crate::walk::walk;
use block::{
    BytePlace, COUNTED_LIMIT, LINE_LIMIT, Link, ReadRefusal, carries, check_length, is_seven,
};
use block_parity::first_wrong;

// Questions 13 to 15, 52, 53 and 17.
fn walk_closed(link: Link, line: &[u8]) -> Result<Segments, ReadRefusal>
    requires { length line.now ≤ line_limit }
    ensures { of_walk result ≡ walked_for link line.now }
{
    let walked = walk(link.code, is_seven(link.method), line);
    let Ok(f) = walked else {
        return walked;
    };
    let after = f.after;
    let counted = f.counted;
    let closed = after + check_length(link.method);
    if line.len() < closed {
        return Err(ReadRefusal::CheckShort(BytePlace(after)));
    }
    if line.len() > closed {
        return Err(ReadRefusal::CheckLong(BytePlace(after)));
    }
    if counted > COUNTED_LIMIT {
        return Err(ReadRefusal::TooManyCounted);
    }
    walked
}

// Questions 58, 11 to 15, 52, 53 and 17.
pub fn find_framing(link: Link, line: &[u8]) -> Result<Segments, ReadRefusal>
    ensures { of_walk result ≡ framing_for link line.now }
{
    let method = link.method;
    if !carries(link.code, method) {
        return Err(ReadRefusal::CodeNotCarried);
    }
    if line.len() > LINE_LIMIT {
        return Err(ReadRefusal::TooLong);
    }
    if !is_seven(method) {
        return walk_closed(link, line);
    }
    let at = first_wrong(link.parity, line);
    if at < line.len() {
        return Err(ReadRefusal::WrongParity(BytePlace(at)));
    }
    walk_closed(link, line)
}
