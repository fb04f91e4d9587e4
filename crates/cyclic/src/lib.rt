// The cyclic checks of methods 3 to 6 (003 par. 2.1 and 2.2, appendices 1 to 3): the formulas of the appendices, what a receiver
// finds, and what a register holds. Crates `cyclic3` to `cyclic6` have a type for each method.
#![tactic(auto)]

ghost use Rattle.std.specs.Prelude.{◌≡◌, ℕ, Bool, List};
ghost use Rattle.bits.specs.Bytes.{bits_of};
ghost use Rattle.registers.specs.Register.{enter};
ghost use Rattle.cyclic.specs.Check.{Parameters, invert_if, check_bits};
ghost use Rattle.cyclic.specs.Laws.{OfWidth};

// The register of a method's check. Bit 0 of a number is the highest power of x.
pub trait Cyclic: Copy {
    type Number: Copy;

    ghost method: { Parameters };

    ghost width: { ℕ };

    ghost register_bits: { Self → List Bool };

    ghost number_bits: { Self.Number → List Bool };

    // The register before any content. This, `enter` and `check` are each type's own: they name its constants, its generator and
    // whether it inverts.
    fn new() -> Self
        ensures { register_bits result ≡ method.start };

    // The register after a whole slice.
    fn enter(self, content: &[u8]) -> Self
        ensures { register_bits result ≡ enter method.generator (register_bits self) (bits_of content.now) };

    // The check that the register stands for.
    fn check(self) -> Self::Number
        ensures { number_bits result ≡ invert_if method.inverted (register_bits self) };

    // The check of a content.
    fn check_of(content: &[u8]) -> Self::Number
        ensures { number_bits result ≡ check_bits method (bits_of content.now) }
    {
        Self::new().enter(content).check()
    }

    ghost of_width: { OfWidth width method };
}
