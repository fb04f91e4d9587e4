// Questions 18 and 54: the check over the counted bytes of a framed line.
ghost use Rattle.std.specs.Prelude.{◌≡◌};
ghost use Rattle.block.specs.Read.{ReadAnswer};
ghost use Rattle.block_check.specs.Asked.{after_asked};
ghost use Rattle.block_reader.specs.Parts.{ask_behind};

use crate::FramedLine;
use block::ReadRefusal;
use block_check::{add_one, add_run, add_segment, ask_check, start_of};

impl FramedLine<'_> {
    // Whether what follows the end sign is the check of the counted bytes: header, inner start, text and end sign.
    pub(crate) fn ask_check(&self) -> Result<(), ReadRefusal>
        ensures { (next : ReadAnswer) → after_asked result next ≡ ask_behind self.now next }
    {
        let m = self.link.method;
        let f = self.segments;
        let header = add_segment(m, start_of(m), &self.header());
        let signs = add_run(m, header, &self.line[f.inner..f.body]);
        let text = add_segment(m, signs, &self.text());
        let counted = add_one(m, text, self.line[f.after - 1]);
        ask_check(self.link, counted, &self.line[f.after..])
    }
}
