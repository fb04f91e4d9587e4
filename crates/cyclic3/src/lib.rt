// Method 3: the check of a block by appendix 1, inverted.
#![tactic(auto)]

ghost use Rattle.std.specs.Prelude.{◌≡◌};
ghost use Rattle.bits.specs.Bytes.{low_bits};
ghost use Rattle.cyclic.specs.Check.{method3, Constants};
ghost use Rattle.cyclic.proofs.Methods.{width_3};

use ccitt16::Ccitt16;
use cyclic::Cyclic;
use folding::Generator;

// The register of the check. Bit 0 of a number is the highest power of x.
#[derive(Clone, Copy)]
pub struct Cyclic3 {
    pub register: u16,
}

impl Cyclic3 {
    pub const WIDTH: usize = 16;

    pub const POLYNOMIAL: u16 = 0x8408;

    pub const START: u16 = 0xffff;

    // In bytes.
    pub const LIMIT: usize = 4096;
}

impl Cyclic for Cyclic3 {
    type Number = u16;

    ghost method = { method3 };

    ghost width = { 16 };

    ghost register_bits = { λ cyclic. low_bits 16 cyclic.register };

    ghost number_bits = { λ number. low_bits 16 number };

    ghost of_width = { width_3 };

    fn new() -> Self
        ensures { Constants method3 result.register Cyclic3.WIDTH Cyclic3.POLYNOMIAL Cyclic3.START Cyclic3.LIMIT }
    {
        Self {
            register: Self::START,
        }
    }

    #[tactic(auto, unfolding(cyclic::specs::Check::method3))]
    fn enter(self, content: &[u8]) -> Self {
        Self {
            register: Ccitt16::enter_content(self.register, content),
        }
    }

    fn check(self) -> u16 {
        self.register ^ u16::MAX
    }
}
