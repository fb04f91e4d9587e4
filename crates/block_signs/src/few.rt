// Up to two bytes of a line: signs, or a check. A clause sees the list of them. A place behind it holds 0, so that the list gives the
// fields back, as `Copy` asks.
ghost use Rattle.std.specs.Prelude.{◌≡◌, ℕ, ◌≤◌, List, [], ◌∷◌, length, take};
ghost use Rattle.block_signs.specs.Signs.{in_two_places};

use std::marker::Model;

#[derive(Clone, Copy)]
pub struct FewBytes {
    bytes: [u8; 2],
    count: usize,
}

impl Model for FewBytes {
    ghost Value = { List ℕ };

    ghost view = { λ f. take f.count f.bytes };

    ghost invariant = { λ f. (f.count ≤ 2) × (length (take f.count f.bytes) ≡ f.count) × (in_two_places (take f.count f.bytes) ≡ f.bytes) };

    ghost inverse = { λ bs. record { bytes = in_two_places bs; count = length bs } };

    ghost inverse_ok = { λ f h i. record { bytes = h.2 i; count = h.1 i } };
}

impl FewBytes {
    pub fn none() -> Self
        ensures { result ≡ [] }
    {
        Self {
            bytes: [0, 0],
            count: 0,
        }
    }

    pub fn one(byte: u8) -> Self
        ensures { result ≡ byte ∷ [] }
    {
        Self {
            bytes: [byte, 0],
            count: 1,
        }
    }

    pub fn two(bytes: [u8; 2]) -> Self
        ensures { result ≡ bytes }
    {
        Self { bytes, count: 2 }
    }

    pub fn as_slice(&self) -> &[u8]
        ensures { result.now ≡ self.now }
    {
        &self.bytes[..self.count]
    }

    pub fn len(&self) -> usize
        ensures length { result ≡ length self.now }
        ensures few { result ≤ 2 }
    {
        self.count
    }
}
