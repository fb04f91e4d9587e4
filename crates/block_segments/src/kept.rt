// Which bytes of a segment are header or text.
ghost use Rattle.std.specs.Prelude.{◌≡◌};
ghost use Rattle.block.specs.Signs.{table_of};
ghost use Rattle.block_framing.specs.Framings.{is_kept, next_behind};

use block::{Code, DLE, character, syn};

// Whether a byte is kept, `behind` a DLE of clear text or not.
#[tactic(auto, unfolding(block_framing::specs::Framings::is_kept))]
pub fn is_kept(code: Code, clear: bool, seven: bool, behind: bool, b: u8) -> bool
    ensures { result ≡ is_kept (table_of code) clear seven behind b }
{
    if clear {
        if behind { b != syn(code) } else { b != DLE }
    } else {
        character(seven, b) != syn(code)
    }
}

// Whether the next byte stands behind a DLE of clear text. DLE is the same in both codes.
#[tactic(auto, unfolding(block_framing::specs::Framings::next_behind))]
pub(crate) fn next_behind(clear: bool, behind: bool, b: u8) -> bool
    ensures { (code : Code) → result ≡ next_behind (table_of code) clear behind b }
{
    if clear {
        if behind { false } else { b == DLE }
    } else {
        false
    }
}

// A segment's bytes judged one after the other.
#[derive(Clone, Copy)]
pub struct Keeping {
    pub code: Code,
    pub clear: bool,
    pub seven: bool,
    pub behind: bool,
}

impl Keeping {
    ghost use Rattle.block_segments.specs.Kept.{begin, keeps, after};

    // At the start of a segment.
    pub fn new(code: Code, clear: bool, seven: bool) -> Self
        ensures { result ≡ begin code clear seven }
    {
        Keeping {
            code,
            clear,
            seven,
            behind: false,
        }
    }

    // Whether the next byte of the segment is kept.
    pub fn keeps(&mut self, b: u8) -> bool
        ensures { (result ≡ keeps self.old b) × (self.new ≡ after self.old b) }
    {
        let keeps = is_kept(self.code, self.clear, self.seven, self.behind, b);
        self.behind = next_behind(self.clear, self.behind, b);
        keeps
    }
}
