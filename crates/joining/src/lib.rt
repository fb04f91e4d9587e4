// The check of two parts joined, in methods 3 to 6, from both checks and both lengths in bytes, without the contents (document 02,
// card 10). Every input is taken; where the joined content is over the method's limit, the answer is document 02's 63.
#![tactic(auto)]

ghost use Rattle.std.specs.Prelude.{◌≡◌, ◌+◌, ◌*◌, ◌<◌, ◌^◌, nat_le};
ghost use Rattle.cyclic.specs.Check.{Parameters};
ghost use Rattle.joining.specs.Joining.{join};
ghost use Rattle.joining.specs.Answers.{number_of, answer_of};

use cyclic::Cyclic;
use polynomials::{Modulus, Polynomial, power, product};

mod methods;

// A part of a content: its check, and its length in bytes.
#[derive(Clone, Copy)]
pub struct Part<Number> {
    pub check: Number,
    pub length: usize,
}

#[derive(Clone, Copy)]
pub enum JoinRefusal {
    // 63: the joined content is over the method's limit
    TooLong,
}

// Document 02's number of a refusal.
impl From<JoinRefusal> for u32 {
    ghost from_gives = { λ refusal number. number ≡ number_of refusal };

    fn from(refusal: JoinRefusal) -> u32 {
        match refusal {
            JoinRefusal::TooLong => 63,
        }
    }
}

// The call, on the type of each method.
pub trait Join: Cyclic {
    fn join(
        first: Part<Self::Number>,
        second: Part<Self::Number>,
    ) -> Result<Self::Number, JoinRefusal>
        ensures { answer_of Self.number_bits result ≡ join Self.method (Self.number_bits first.check) first.length (Self.number_bits second.check) second.length };
}

// Whether two lengths together are within a limit: their sum may not fit.
fn within(limit: usize, first: usize, second: usize) -> bool
    ensures { result ≡ nat_le (first + second) limit }
{
    if first > limit {
        return false;
    }
    second <= limit - first
}

// The first check times x to the second part's bits, plus the second check.
fn join_by<M: Modulus>(
    limit: usize,
    first: Part<M::Number>,
    second: Part<M::Number>,
) -> Result<M::Number, JoinRefusal>
    requires { 8 * limit < 2 ^ 64 }
    ensures { (m : Parameters) → M.generator ≡ m.generator → limit ≡ m.limit → answer_of M.Number.coefficients result ≡ join m (M.Number.coefficients first.check) first.length (M.Number.coefficients second.check) second.length }
{
    if !within(limit, first.length, second.length) {
        return Err(JoinRefusal::TooLong);
    }
    let moved = product::<M>(first.check, power::<M>(8 * second.length));
    Ok(moved.plus(second.check))
}
