// The segments of a line, from where the walk over it ended and from what the walk kept.
ghost use Rattle.std.specs.Prelude.{◌≡◌, ◌≤◌, None, Some};
ghost use Rattle.block.specs.Limits.{line_limit};
ghost use Rattle.block_framing.specs.Walks as walks;

use crate::{FirstInnerStart, LeftOuts, Segments};
use block::EndSign;
use block_end::shape_by;

// Where the walk ended: the place of the line's start, how many signs stand before its text, its end sign, and how many bytes it
// has with it.
#[derive(Clone, Copy)]
pub(crate) struct Ending {
    pub start: usize,
    pub signs: usize,
    pub end: EndSign,
    pub after: usize,
    ghost start_small: { start ≤ line_limit },
    ghost signs_few: { signs ≤ 2 },
}

impl Ending {
    // The segments of a line that ends in its header.
    #[tactic(auto, unfolding(crate::specs::Walks::segments_at))]
    fn header_alone(self, t: LeftOuts) -> Segments
        ensures { result ≡ walks.segments_at self.start 0 self.end t self.after }
    {
        let after = self.after;
        let counted = after.saturating_sub(t.all);
        let last = after.saturating_sub(1);
        Segments {
            shape: shape_by(0, t.inner.is_some()),
            end: self.end,
            head: self.start + 1,
            inner: last,
            body: last,
            tail: last,
            header: counted.saturating_sub(1),
            text: 0,
            counted,
            after,
        }
    }

    // The segments of a line with a text and no header, `all` of its bytes left out.
    fn text_alone(self, all: usize) -> Segments
        ensures { result ≡ walks.text_at self.start self.signs self.end None all self.after }
    {
        let after = self.after;
        let counted = after.saturating_sub(all);
        let body = self.start + self.signs;
        Segments {
            shape: shape_by(self.signs, false),
            end: self.end,
            head: body,
            inner: body,
            body,
            tail: after.saturating_sub(self.signs),
            header: 0,
            text: counted.saturating_sub(1),
            counted,
            after,
        }
    }

    // The segments of a line with a header and a text, `all` of its bytes left out.
    fn header_and_text(self, inner: FirstInnerStart, all: usize) -> Segments
        requires { inner.at ≤ line_limit }
        ensures { result ≡ walks.text_at self.start self.signs self.end (Some inner) all self.after }
    {
        let after = self.after;
        let signs = self.signs;
        let counted = after.saturating_sub(all);
        let header = inner.at.saturating_sub(inner.before);
        Segments {
            shape: shape_by(signs, true),
            end: self.end,
            head: self.start + 1,
            inner: inner.at,
            body: inner.at + signs,
            tail: after.saturating_sub(signs),
            header,
            text: counted.saturating_sub(header + signs + 1),
            counted,
            after,
        }
    }

    // The segments of a line that ends here, of which the walk kept `t`.
    #[tactic(auto, unfolding(crate::specs::Walks::segments_at))]
    pub(crate) fn segments(self, t: LeftOuts) -> Segments
        requires { walks.Small t line_limit }
        ensures { result ≡ walks.segments_at self.start self.signs self.end t self.after }
    {
        if self.signs == 0 {
            return self.header_alone(t);
        }
        match t.inner {
            None => self.text_alone(t.all),
            Some(inner) => self.header_and_text(inner, t.all),
        }
    }
}
