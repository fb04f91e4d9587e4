// The number of a shape, and what it holds.
ghost use Rattle.std.specs.Prelude.{◌≡◌};
ghost use Rattle.block.specs.Answers.{shape_number};
ghost use Rattle.block.specs.Write.{is_clear};

use crate::Shape;

// Document 01's number of a shape.
impl From<Shape> for usize {
    ghost from_gives = { λ shape number. number ≡ shape_number shape };

    fn from(shape: Shape) -> usize {
        match shape {
            Shape::Header => 1,
            Shape::Text => 2,
            Shape::HeaderText => 3,
            Shape::ClearText => 4,
            Shape::HeaderClearText => 5,
        }
    }
}

pub fn is_clear(s: Shape) -> bool
    ensures { result ≡ is_clear s }
{
    matches!(s, Shape::ClearText | Shape::HeaderClearText)
}
