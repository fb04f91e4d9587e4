// The walk over a line, questions 13 to 15.
ghost use Rattle.std.specs.Prelude.{◌≡◌, ◌≤◌, length};
ghost use Rattle.block.specs.Limits.{line_limit};
ghost use Rattle.block.specs.Signs.{table_of};
ghost use Rattle.block.specs.Walk as rule;
ghost use Rattle.block_framing.specs.Framings.{start_of, of_walk};
ghost use Rattle.block_framing.specs.Walks as walks;

use crate::ending::Ending;
use crate::{FirstInnerStart, LeftOuts, Segments};
use block::{BytePlace, Code, Field, Judged, Mark, ReadRefusal, character, in_koi7};
use block_end::{cut, fill_ahead, text_signs};
use block_fields::judge;
use block_scan::data_run;

impl LeftOuts {
    // Before the first mark.
    fn none() -> LeftOuts
        ensures { result ≡ walks.no_left_outs }
    {
        LeftOuts {
            inner: None,
            all: 0,
        }
    }

    // One mark more, that of the byte at the place `at`.
    fn leave(self, k: Mark, at: usize) -> LeftOuts
        requires { walks.Small self line_limit }
        ensures { result ≡ walks.leave k at self }
    {
        let inner = self.inner;
        let all = self.all;
        match k {
            Mark::LeftOut => LeftOuts {
                inner,
                all: all + 1,
            },
            Mark::HeaderByte => self,
            Mark::TextByte => self,
            Mark::InnerStart => LeftOuts {
                inner: inner.or(Some(FirstInnerStart { at, before: all })),
                all,
            },
            Mark::End => self,
        }
    }
}

// A turn passes a byte and the run of data behind it, so the place moves on by what was passed, and no `for` is plainer.
pub(crate) fn walk(code: Code, seven: bool, line: &[u8]) -> Result<Segments, ReadRefusal>
    requires { length line.now ≤ line_limit }
    ensures { of_walk result ≡ walks.walk_answer (start_of (table_of code) seven line.now) walks.no_left_outs 0 (rule.walk (table_of code) seven line.now 0 Field.Start) }
{
    let mut t = LeftOuts::none();
    let mut f = Field::Start;
    let mut i = 0;
    while i < line.len() {
        match judge(seven, f, in_koi7(code, character(seven, line[i]))) {
            Judged::Is(k, g) => {
                let next = i + 1;
                t = t.leave(k, i);
                f = g;
                i = next + data_run(code, seven, g, &line[next..]);
            }
            Judged::Ends(e) => {
                let ending = Ending {
                    start: fill_ahead(code, seven, line),
                    signs: text_signs(f),
                    end: e,
                    after: i + 1,
                };
                return Ok(ending.segments(t));
            }
            Judged::NoStart => {
                return Err(ReadRefusal::NoStart);
            }
            Judged::OutOfPlace => {
                return Err(ReadRefusal::OutOfPlace(BytePlace(i)));
            }
            Judged::DleOutOfPlace => {
                return Err(ReadRefusal::OutOfPlace(BytePlace(i.saturating_sub(1))));
            }
        }
    }
    Err(cut(f))
}
