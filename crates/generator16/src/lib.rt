// A byte or a slice entered into the register of a generator of 16 bits, for code that serves methods 3 and 4 alike. The contracts
// give the register as a number, so that callers add up registers and sums by the same laws.
#![tactic(auto)]

ghost use Rattle.std.specs.Prelude.{◌≡◌, ℕ, [], ◌∷◌, length, refl};
ghost use Rattle.bits.specs.Bytes.{low_bits};
ghost use Rattle.division.proofs.Generators.{ccitt16_generator, ibm16_generator};
ghost use Rattle.generator16.specs.Register.{register_after};

use ccitt16::Ccitt16;
use folding::Generator;
use ibm16::Ibm16;

// A generator of 16 bits: its register is a number, and holds the bits of that number.
pub trait Generator16: Generator<Register = u16> {
    ghost width: { length Self.generator ≡ 16 };

    ghost bits_of_number: { (register : ℕ) → Self.register_bits register ≡ low_bits 16 register };
}

impl Generator16 for Ccitt16 {
    ghost width = { ccitt16_generator.width };

    ghost bits_of_number = { λ _. refl };
}

impl Generator16 for Ibm16 {
    ghost width = { ibm16_generator.width };

    ghost bits_of_number = { λ _. refl };
}

// A byte entered into a register.
pub fn enter_one<G: Generator16>(start: u16, byte: u8) -> u16
    ensures { result ≡ register_after G.generator start (byte ∷ []) }
{
    G::enter_byte(start, byte)
}

// A slice entered into a register.
pub fn enter_run<G: Generator16>(start: u16, run: &[u8]) -> u16
    ensures { result ≡ register_after G.generator start run.now }
{
    G::enter_content(start, run)
}
