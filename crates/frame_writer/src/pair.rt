// Positions of bits: how they move on, and how much stands before them.
ghost use Rattle.std.specs.Prelude.{◌≡◌, ◌+◌, ◌*◌, ◌^◌, ◌<◌, ◌≤◌};
ghost use Rattle.bits.specs.Bytes.{bytes_for};
ghost use Rattle.frame_writer.specs.Stepping.{pair, stepped};
ghost use Rattle.frame_writer.specs.Steps.{bits_before};

use crate::Position;

impl Position {
    // A byte on.
    pub(crate) fn after_byte(self) -> Position
        requires { self.index + 1 < 2 ^ 64 }
        ensures { pair result ≡ stepped 8 (pair self) }
    {
        Position {
            index: self.index + 1,
            place: self.place,
        }
    }

    // A byte and the zeros in it on: two zeros at most. Most bytes have none, and then the place need not be tested.
    pub(crate) fn after_sent(self, zeros: u32) -> Position
        requires { (zeros ≤ 2) × (self.index + 2 < 2 ^ 64) }
        ensures { pair result ≡ stepped (8 + zeros) (pair self) }
    {
        if zeros == 0 {
            return self.after_byte();
        }
        let place = self.place + zeros;
        if place < 8 {
            return Position {
                index: self.index + 1,
                place,
            };
        }
        Position {
            index: self.index + 2,
            place: place - 8,
        }
    }

    // A few bits on: fewer than two bytes.
    pub(crate) fn after_bits(self, n: u32) -> Position
        requires { (n ≤ 9) × (self.index + 2 < 2 ^ 64) }
        ensures { pair result ≡ stepped n (pair self) }
    {
        let place = self.place + n;
        if place >= 16 {
            return Position {
                index: self.index + 2,
                place: place - 16,
            };
        }
        if place >= 8 {
            return Position {
                index: self.index + 1,
                place: place - 8,
            };
        }
        Position {
            index: self.index,
            place,
        }
    }

    // How many bits stand before it.
    pub(crate) fn bits(self) -> usize
        requires { 8 * self.index + 8 < 2 ^ 64 }
        ensures { result ≡ bits_before self }
    {
        8 * self.index + self.place as usize
    }

    // How many bytes those take.
    pub(crate) fn bytes(self) -> usize
        requires { self.index + 1 < 2 ^ 64 }
        ensures { result ≡ bytes_for (bits_before self) }
    {
        if self.place == 0 {
            return self.index;
        }
        self.index + 1
    }
}
