// Method 5: the check of a frame by appendix 1, inverted.
#![tactic(auto)]

ghost use Rattle.std.specs.Prelude.{◌≡◌, ◌≤◌};
ghost use Rattle.bits.specs.Bytes.{low_bits};
ghost use Rattle.registers.specs.Register.{enter};
ghost use Rattle.cyclic.specs.Check.{method5, Constants, Receives};
ghost use Rattle.cyclic.proofs.Methods.{width_5};

use ccitt16::Ccitt16;
use cyclic::Cyclic;
use folding::Generator;

// The register of the check. Bit 0 of a number is the highest power of x.
#[derive(Clone, Copy)]
pub struct Cyclic5 {
    pub register: u16,
}

impl Cyclic5 {
    pub const WIDTH: usize = 16;

    pub const POLYNOMIAL: u16 = 0x8408;

    pub const START: u16 = 0xffff;

    // In bytes.
    pub const LIMIT: usize = 4096;

    // What content and check leave a receiver where the check is right (003 appendix 1).
    pub const RESIDUE: u16 = 0xf0b8;

    // The register after the k lowest bits of a byte, eight at most.
    #[tactic(auto, unfolding(cyclic::specs::Check::method5))]
    pub fn enter_bits(self, byte: u8, k: u32) -> Self
        ensures { k ≤ 8 → low_bits 16 result.register ≡ enter method5.generator (low_bits 16 self.register) (low_bits k byte) }
    {
        Self {
            register: Ccitt16::enter_bits(self.register, byte, k),
        }
    }
}

impl Cyclic for Cyclic5 {
    type Number = u16;

    ghost method = { method5 };

    ghost width = { 16 };

    ghost register_bits = { λ cyclic. low_bits 16 cyclic.register };

    ghost number_bits = { λ number. low_bits 16 number };

    ghost of_width = { width_5 };

    fn new() -> Self
        ensures constants { Constants method5 result.register Cyclic5.WIDTH Cyclic5.POLYNOMIAL Cyclic5.START Cyclic5.LIMIT }
        ensures residue { Receives method5 16 (low_bits 16 Cyclic5.RESIDUE) }
    {
        Self {
            register: Self::START,
        }
    }

    #[tactic(auto, unfolding(cyclic::specs::Check::method5))]
    fn enter(self, content: &[u8]) -> Self {
        Self {
            register: Ccitt16::enter_content(self.register, content),
        }
    }

    fn check(self) -> u16 {
        self.register ^ u16::MAX
    }
}
