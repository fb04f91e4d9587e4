// The numbers that C passes for a method, a parity, a code, a shape, an end sign and a polynomial: document 01's numbers of methods and
// shapes, 0 and 1 for parity, 0 and 1 for KOI-7 and DKOI, the end signs by their bytes in KOI-7, and polynomials by their degrees. Every
// number is taken: one outside its list is none of them. They stand here together, as the list of what C may pass, and not as a
// `TryFrom` beside each type in `block`, `frame`, `fixed_block` and `orders`.
#![tactic(auto)]

ghost use Rattle.std.specs.Prelude.{◌≡◌};
ghost use Rattle.codes.specs.Codes.{method_of, parity_of, characters_of, shape_of, end_of, link_of, format_of, frame_method_of, polynomial_of, cyclic_method_of};

use block::{Code, ETB, ETX, EndSign, Link, Method, Parity, Shape, US};
use fixed_block::Polynomial;
use frame::FrameMethod;
use orders::CyclicMethod;

// What a block to be written has.
#[derive(Clone, Copy)]
pub struct Format {
    pub shape: Shape,
    pub end: EndSign,
}

fn method_of(code: u8) -> Option<Method>
    ensures { result ≡ method_of code }
{
    match code {
        1 => Some(Method::Parity),
        2 => Some(Method::Matrix),
        3 => Some(Method::Cyclic),
        4 => Some(Method::CyclicAlternative),
        7 => Some(Method::Diagonal),
        _ => None,
    }
}

fn parity_of(code: u8) -> Option<Parity>
    ensures { result ≡ parity_of code }
{
    match code {
        0 => Some(Parity::Even),
        1 => Some(Parity::Odd),
        _ => None,
    }
}

fn characters_of(code: u8) -> Option<Code>
    ensures { result ≡ characters_of code }
{
    match code {
        0 => Some(Code::Koi7),
        1 => Some(Code::Dkoi),
        _ => None,
    }
}

fn shape_of(code: u8) -> Option<Shape>
    ensures { result ≡ shape_of code }
{
    match code {
        1 => Some(Shape::Header),
        2 => Some(Shape::Text),
        3 => Some(Shape::HeaderText),
        4 => Some(Shape::ClearText),
        5 => Some(Shape::HeaderClearText),
        _ => None,
    }
}

fn end_of(code: u8) -> Option<EndSign>
    ensures { result ≡ end_of code }
{
    match code {
        ETX => Some(EndSign::Etx),
        ETB => Some(EndSign::Etb),
        US => Some(EndSign::Us),
        _ => None,
    }
}

// Codes that are all known: this and the one below are as plain as one function over both kinds.
pub fn link_of(method: u8, parity: u8, characters: u8) -> Option<Link>
    ensures { result ≡ link_of method parity characters }
{
    let method = method_of(method)?;
    let parity = parity_of(parity)?;
    let code = characters_of(characters)?;
    Some(Link {
        method,
        parity,
        code,
    })
}

pub fn format_of(shape: u8, end_sign: u8) -> Option<Format>
    ensures { result ≡ format_of shape end_sign }
{
    let shape = shape_of(shape)?;
    let end = end_of(end_sign)?;
    Some(Format { shape, end })
}

pub fn frame_method_of(code: u8) -> Option<FrameMethod>
    ensures { result ≡ frame_method_of code }
{
    match code {
        5 => Some(FrameMethod::Cyclic16),
        6 => Some(FrameMethod::Cyclic32),
        _ => None,
    }
}

pub fn polynomial_of(degree: u8) -> Option<Polynomial>
    ensures { result ≡ polynomial_of degree }
{
    match degree {
        8 => Some(Polynomial::Degree8),
        16 => Some(Polynomial::Degree16),
        24 => Some(Polynomial::Degree24),
        _ => None,
    }
}

// The methods that an order can name.
pub fn cyclic_method_of(code: u8) -> Option<CyclicMethod>
    ensures { result ≡ cyclic_method_of code }
{
    match code {
        3 => Some(CyclicMethod::Cyclic),
        4 => Some(CyclicMethod::CyclicAlternative),
        _ => None,
    }
}
