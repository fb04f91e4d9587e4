// Method 6: the check of a frame by appendix 2, inverted.
#![tactic(auto)]

ghost use Rattle.std.specs.Prelude.{◌≡◌, ◌≤◌};
ghost use Rattle.bits.specs.Bytes.{low_bits};
ghost use Rattle.registers.specs.Register.{enter};
ghost use Rattle.cyclic.specs.Check.{method6, Constants, Receives};
ghost use Rattle.cyclic.proofs.Methods.{width_6};

use cyclic::Cyclic;
use folding::Generator;
use ieee32::Ieee32;

// The register of the check. Bit 0 of a number is the highest power of x.
#[derive(Clone, Copy)]
pub struct Cyclic6 {
    pub register: u32,
}

impl Cyclic6 {
    pub const WIDTH: usize = 32;

    pub const POLYNOMIAL: u32 = 0xedb88320;

    pub const START: u32 = 0xffffffff;

    // In bytes.
    pub const LIMIT: usize = 65536;

    // What content and check leave a receiver where the check is right: worked out by the formula of 003 appendix 2, which misprints it.
    pub const RESIDUE: u32 = 0xdebb20e3;

    // The register after the k lowest bits of a byte, eight at most.
    #[tactic(auto, unfolding(cyclic::specs::Check::method6))]
    pub fn enter_bits(self, byte: u8, k: u32) -> Self
        ensures { k ≤ 8 → low_bits 32 result.register ≡ enter method6.generator (low_bits 32 self.register) (low_bits k byte) }
    {
        Self {
            register: Ieee32::enter_bits(self.register, byte, k),
        }
    }
}

impl Cyclic for Cyclic6 {
    type Number = u32;

    ghost method = { method6 };

    ghost width = { 32 };

    ghost register_bits = { λ cyclic. low_bits 32 cyclic.register };

    ghost number_bits = { λ number. low_bits 32 number };

    ghost of_width = { width_6 };

    fn new() -> Self
        ensures constants { Constants method6 result.register Cyclic6.WIDTH Cyclic6.POLYNOMIAL Cyclic6.START Cyclic6.LIMIT }
        ensures residue { Receives method6 32 (low_bits 32 Cyclic6.RESIDUE) }
    {
        Self {
            register: Self::START,
        }
    }

    #[tactic(auto, unfolding(cyclic::specs::Check::method6))]
    fn enter(self, content: &[u8]) -> Self {
        Self {
            register: Ieee32::enter_content(self.register, content),
        }
    }

    fn check(self) -> u32 {
        self.register ^ u32::MAX
    }
}
