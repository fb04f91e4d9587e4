// The methods that an order can name (document 02, card 14), and the byte by which the record of a station keeps one: `sender` and
// `receiver` share them. Every input is taken: a byte that keeps no method is told by `is_method`, and gives the link of method 4.
#![tactic(auto)]

ghost use Rattle.std.specs.Prelude.{◌≡◌};
ghost use Rattle.orders.specs.Methods as rule;
ghost use Rattle.orders.specs.Methods.{as_method};

use block::{Code, Link, Method, Parity};

// Methods 3 and 4, and no other.
#[derive(Clone, Copy)]
pub enum CyclicMethod {
    Cyclic,
    CyclicAlternative,
}

impl From<CyclicMethod> for Method {
    ghost from_gives = { λ ordered method. method ≡ as_method ordered };

    fn from(ordered: CyclicMethod) -> Method {
        match ordered {
            CyclicMethod::Cyclic => Method::Cyclic,
            CyclicMethod::CyclicAlternative => Method::CyclicAlternative,
        }
    }
}

// The byte that keeps a method: its number.
pub fn byte_of(method: CyclicMethod) -> u8
    ensures { result ≡ rule.byte_of method }
{
    match method {
        CyclicMethod::Cyclic => 3,
        CyclicMethod::CyclicAlternative => 4,
    }
}

// Whether a byte of a record keeps a method.
pub fn is_method(byte: u8) -> bool
    ensures { result ≡ rule.is_method byte }
{
    (byte == 0) | (byte == 3) | (byte == 4)
}

fn method_of(byte: u8) -> CyclicMethod
    ensures { result ≡ rule.method_of byte }
{
    if byte == 3 {
        CyclicMethod::Cyclic
    } else {
        CyclicMethod::CyclicAlternative
    }
}

// The link under which blocks go by the method that a byte keeps.
pub fn link_of(byte: u8) -> Link
    ensures { result ≡ rule.link_of byte }
{
    Link {
        method: Method::from(method_of(byte)),
        parity: Parity::Even,
        code: Code::Koi7,
    }
}
