// The signs between header and text, which are the same in both codes.
ghost use Rattle.std.specs.Prelude.{◌≡◌};
ghost use Rattle.block.specs.Signs.{table_of};
ghost use Rattle.block.specs.Write.{inner_signs};

use crate::few::FewBytes;
use block::{Code, DLE, STX, Shape};

pub fn inner_signs(shape: Shape) -> FewBytes
    ensures { (code : Code) → result ≡ inner_signs (table_of code) shape }
{
    match shape {
        Shape::Header => FewBytes::none(),
        Shape::Text => FewBytes::none(),
        Shape::HeaderText => FewBytes::one(STX),
        Shape::ClearText => FewBytes::none(),
        Shape::HeaderClearText => FewBytes::two([DLE, STX]),
    }
}
