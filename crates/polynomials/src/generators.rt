// The generators of methods 3 to 6: what is over the degree enters an empty register.
ghost use Rattle.division.specs.Generators.{ccitt16, ibm16, ieee32};
ghost use Rattle.division.proofs.Generators.{ccitt16_generator, ibm16_generator, ieee32_generator};

use crate::Modulus;
use ccitt16::Ccitt16;
use folding::Generator;
use ibm16::Ibm16;
use ieee32::Ieee32;

impl Modulus for Ccitt16 {
    type Number = u16;

    ghost generator = { ccitt16 };

    ghost width = { ccitt16_generator.width };

    fn moved_up(polynomial: u16) -> u16 {
        Ccitt16::enter_word(0, (polynomial as u64) << 48)
    }
}

impl Modulus for Ibm16 {
    type Number = u16;

    ghost generator = { ibm16 };

    ghost width = { ibm16_generator.width };

    fn moved_up(polynomial: u16) -> u16 {
        Ibm16::enter_word(0, (polynomial as u64) << 48)
    }
}

impl Modulus for Ieee32 {
    type Number = u32;

    ghost generator = { ieee32 };

    ghost width = { ieee32_generator.width };

    fn moved_up(polynomial: u32) -> u32 {
        Ieee32::enter_word(0, (polynomial as u64) << 32)
    }
}
