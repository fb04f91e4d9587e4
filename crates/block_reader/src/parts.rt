// Header and text of a framed line, and both handed out.
ghost use Rattle.std.specs.Prelude.{◌≡◌, ◌++◌, map};
ghost use Rattle.std.proofs.lemmas.List.Edits.{sets};
ghost use Rattle.block.specs.Characters.{character, is_seven};
ghost use Rattle.block_segments.specs.Segment.{kept_in};
ghost use Rattle.block_reader.specs.Parts.{header_of, text_of};

use crate::FramedLine;
use block::{is_clear, is_seven};
use block_segments::{Segment, copy_both};

impl FramedLine<'_> {
    pub(crate) fn header(&self) -> Segment<'_>
        ensures { kept_in (is_seven self.now.link.method) result ≡ header_of self.now }
    {
        let f = self.segments;
        Segment {
            code: self.link.code,
            bytes: &self.line[f.head..f.inner],
            kept: f.header,
            clear: false,
        }
    }

    pub(crate) fn text(&self) -> Segment<'_>
        ensures { kept_in (is_seven self.now.link.method) result ≡ text_of self.now }
    {
        let f = self.segments;
        Segment {
            code: self.link.code,
            bytes: &self.line[f.body..f.tail],
            kept: f.text,
            clear: is_clear(f.shape),
        }
    }

    // Header, then text, at the start of the output.
    pub(crate) fn hand_out(&self, out: &mut [u8])
        ensures { out.new ≡ sets out.old 0 (map (character (is_seven self.now.link.method)) (header_of self.now ++ text_of self.now)) }
    {
        copy_both(
            is_seven(self.link.method),
            &self.header(),
            &self.text(),
            &mut *out,
        );
    }
}
