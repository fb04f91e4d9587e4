// What is asked at the end of the walk over a line (document 01, part 3): the refusal of a line without an end sign, the signs
// around its text, its shape, and the fill ahead of its start. Each takes every input.
#![tactic(auto)]

ghost use Rattle.std.specs.Prelude.{◌≡◌};
ghost use Rattle.block.specs.Walk as rule;
ghost use Rattle.block.specs.Signs.{table_of};
ghost use Rattle.block.specs.Answers.{read_number, read_value};
ghost use Rattle.block.specs.Scan.{first_failing};
ghost use Rattle.block_end.specs.Ends.{text_signs, shape_at, shape_by, is_fill};

use block::{Code, Field, ReadRefusal, Shape, character, syn};
use runs::{ByteTest, short_run};

// The line ends before an end sign.
pub fn cut(f: Field) -> ReadRefusal
    ensures { rule.refused (read_number result) (read_value result) ≡ rule.cut f }
{
    match f {
        Field::Start => ReadRefusal::NoStart,
        Field::StartDle => ReadRefusal::NoStart,
        Field::Header => ReadRefusal::NoEnd,
        Field::HeaderDle => ReadRefusal::NoEnd,
        Field::Text => ReadRefusal::NoEnd,
        Field::Clear => ReadRefusal::NoEnd,
        Field::ClearDle => ReadRefusal::NoEnd,
    }
}

// How many signs stand before the text of a line whose end sign stands in field f, and as many after it; 0 where it has no text.
pub fn text_signs(f: Field) -> usize
    ensures { result ≡ text_signs f }
{
    match f {
        Field::Start => 0,
        Field::StartDle => 0,
        Field::Header => 0,
        Field::HeaderDle => 0,
        Field::Text => 1,
        Field::Clear => 0,
        Field::ClearDle => 2,
    }
}

// The shape of a line with so many signs before its text, and with an inner start or without.
#[tactic(auto, unfolding(crate::specs::Ends::shape_by))]
pub fn shape_by(signs: usize, has_inner: bool) -> Shape
    ensures { result ≡ shape_by signs has_inner }
{
    if signs == 0 {
        return Shape::Header;
    }
    if has_inner {
        if signs == 1 {
            Shape::HeaderText
        } else {
            Shape::HeaderClearText
        }
    } else {
        if signs == 1 {
            Shape::Text
        } else {
            Shape::ClearText
        }
    }
}

// The same of its inner start's place, 0 where it has none.
#[tactic(auto, unfolding(crate::specs::Ends::shape_at, crate::specs::Ends::shape_by))]
pub fn shape_at(signs: usize, inner: usize) -> Shape
    ensures { result ≡ shape_at signs inner }
{
    shape_by(signs, inner != 0)
}

#[derive(Clone, Copy)]
struct Fill {
    code: Code,
    seven: bool,
}

impl ByteTest for Fill {
    ghost passing = { λ test. is_fill (table_of test.code) test.seven };

    fn passes(self, b: u8) -> bool {
        character(self.seven, b) == syn(self.code)
    }
}

// How many SYN stand ahead of the start: mostly none.
pub fn fill_ahead(code: Code, seven: bool, line: &[u8]) -> usize
    ensures { result ≡ first_failing (is_fill (table_of code) seven) 0 line.now }
{
    short_run(Fill { code, seven }, line)
}
