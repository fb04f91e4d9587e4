// Method 4: the alternative check of a block by appendix 3, from zero and not inverted.
#![tactic(auto)]

ghost use Rattle.std.specs.Prelude.{◌≡◌};
ghost use Rattle.bits.specs.Bytes.{low_bits};
ghost use Rattle.cyclic.specs.Check.{method4, Constants};
ghost use Rattle.cyclic.proofs.Methods.{width_4};

use cyclic::Cyclic;
use folding::Generator;
use ibm16::Ibm16;

// The register of the check. Bit 0 of a number is the highest power of x.
#[derive(Clone, Copy)]
pub struct Cyclic4 {
    pub register: u16,
}

impl Cyclic4 {
    pub const WIDTH: usize = 16;

    pub const POLYNOMIAL: u16 = 0xa001;

    pub const START: u16 = 0x0000;

    // In bytes.
    pub const LIMIT: usize = 4096;
}

impl Cyclic for Cyclic4 {
    type Number = u16;

    ghost method = { method4 };

    ghost width = { 16 };

    ghost register_bits = { λ cyclic. low_bits 16 cyclic.register };

    ghost number_bits = { λ number. low_bits 16 number };

    ghost of_width = { width_4 };

    fn new() -> Self
        ensures { Constants method4 result.register Cyclic4.WIDTH Cyclic4.POLYNOMIAL Cyclic4.START Cyclic4.LIMIT }
    {
        Self {
            register: Self::START,
        }
    }

    #[tactic(auto, unfolding(cyclic::specs::Check::method4))]
    fn enter(self, content: &[u8]) -> Self {
        Self {
            register: Ibm16::enter_content(self.register, content),
        }
    }

    #[tactic(auto, unfolding(cyclic::specs::Check::method4))]
    fn check(self) -> u16 {
        self.register
    }
}
