// The signs of a line to be written, by the shape of its block: the start, the inner start and the end; and the type of up to two
// bytes that hold them. Each function takes every input.
#![tactic(auto)]

ghost use Rattle.std.specs.Prelude.{◌≡◌};
ghost use Rattle.block.specs.Signs.{table_of};
ghost use Rattle.block.specs.Write.{start_signs};
ghost use Rattle.block_signs.specs.Signs.{end_signs};

use block::{Code, DLE, EndSign, SOH, STX, Shape, end_byte};

mod few;
mod inner;

pub use few::FewBytes;
pub use inner::inner_signs;

// SOH where there is a header, else the signs before the text. They are the same in both codes.
pub fn start_signs(shape: Shape) -> FewBytes
    ensures { (code : Code) → result ≡ start_signs (table_of code) shape }
{
    match shape {
        Shape::Header => FewBytes::one(SOH),
        Shape::Text => FewBytes::one(STX),
        Shape::HeaderText => FewBytes::one(SOH),
        Shape::ClearText => FewBytes::two([DLE, STX]),
        Shape::HeaderClearText => FewBytes::one(SOH),
    }
}

// The end sign, which has a DLE before it in clear text.
pub fn end_signs(code: Code, clear: bool, end: EndSign) -> FewBytes
    ensures { result ≡ end_signs (table_of code) clear end }
{
    let sign = end_byte(code, end);
    if clear {
        FewBytes::two([DLE, sign])
    } else {
        FewBytes::one(sign)
    }
}
