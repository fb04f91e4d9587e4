// Lengths on the line: of the text, and of the whole.
ghost use Rattle.std.specs.Prelude.{◌≡◌, length};
ghost use Rattle.block.specs.Signs.{table_of};
ghost use Rattle.block.specs.Lent.{line_of_parts};
ghost use Rattle.block.specs.Write as rule;
ghost use Rattle.block_line.specs.Line.{text_bytes};

use crate::ShortParts;
use block::{Code, DLE, Link, check_length, is_clear};
use block_signs::{end_signs, inner_signs, start_signs};

impl ShortParts<'_> {
    // The length of the text on the line. In clear text each DLE is sent twice.
    #[tactic(auto, unfolding(block_line::specs::Line::text_bytes))]
    fn text_length(self) -> usize
        ensures { (code : Code) → result ≡ length (text_bytes (table_of code) (rule.is_clear self.entry.parts.now.shape) self.entry.parts.now.text.now) }
    {
        let text = self.parts.text;
        if !is_clear(self.parts.shape) {
            return text.len();
        }
        text.len() + text.iter().map(|b| usize::from(*b == DLE)).sum::<usize>()
    }

    // The length of the line.
    pub(crate) fn line_length(self, link: Link) -> usize
        ensures { result ≡ length (line_of_parts link self.entry.parts.now) }
    {
        let parts = self.parts;
        let signs = start_signs(parts.shape).len()
            + inner_signs(parts.shape).len()
            + end_signs(link.code, is_clear(parts.shape), parts.end).len();
        signs + parts.header.len() + self.text_length() + check_length(link.method)
    }
}
