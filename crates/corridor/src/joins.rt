// The joining calls for C, one for each method, as the checks are. The value is the joined check.
ghost use Rattle.std.specs.Prelude.{◌≡◌, [], ◌∷◌};
ghost use Rattle.cyclic.specs.Check.{method3, method4, method5, method6};
ghost use Rattle.corridor.specs.Calls.{called, join_call};

use cyclic3::Cyclic3;
use cyclic4::Cyclic4;
use cyclic5::Cyclic5;
use cyclic6::Cyclic6;
use join_answers::{joined_16, joined_32};
use joining::{Join, Part};

fn part<Number>(check: Number, length: usize) -> Part<Number>
    ensures check { result.check ≡ check }
    ensures length { result.length ≡ length }
{
    Part { check, length }
}

#[unsafe(no_mangle)]
pub extern "C" fn corridor_join_3(
    first: u16,
    first_length: usize,
    second: u16,
    second_length: usize,
    value: &mut usize,
) -> u32
    ensures { called result (value.new ∷ []) [] ≡ join_call method3 16 first first_length second second_length }
{
    let first = part(first, first_length);
    let second = part(second, second_length);
    let joined = joined_16(Cyclic3::join(first, second));
    *value = joined.value;
    joined.number
}

#[unsafe(no_mangle)]
pub extern "C" fn corridor_join_4(
    first: u16,
    first_length: usize,
    second: u16,
    second_length: usize,
    value: &mut usize,
) -> u32
    ensures { called result (value.new ∷ []) [] ≡ join_call method4 16 first first_length second second_length }
{
    let first = part(first, first_length);
    let second = part(second, second_length);
    let joined = joined_16(Cyclic4::join(first, second));
    *value = joined.value;
    joined.number
}

#[unsafe(no_mangle)]
pub extern "C" fn corridor_join_5(
    first: u16,
    first_length: usize,
    second: u16,
    second_length: usize,
    value: &mut usize,
) -> u32
    ensures { called result (value.new ∷ []) [] ≡ join_call method5 16 first first_length second second_length }
{
    let first = part(first, first_length);
    let second = part(second, second_length);
    let joined = joined_16(Cyclic5::join(first, second));
    *value = joined.value;
    joined.number
}

#[unsafe(no_mangle)]
pub extern "C" fn corridor_join_6(
    first: u32,
    first_length: usize,
    second: u32,
    second_length: usize,
    value: &mut usize,
) -> u32
    ensures { called result (value.new ∷ []) [] ≡ join_call method6 32 first first_length second second_length }
{
    let first = part(first, first_length);
    let second = part(second, second_length);
    let joined = joined_32(Cyclic6::join(first, second));
    *value = joined.value;
    joined.number
}
