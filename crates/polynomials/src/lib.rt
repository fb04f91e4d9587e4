// Polynomials modulo a generator, as numbers of as many bits as the generator's degree. Each type of numbers says how it holds a
// polynomial, and each generator how what is over its degree is taken back; products and powers of x stand here once, over the
// width. Bit 0 is the highest power of x.
#![tactic(auto)]

ghost use Rattle.std.specs.Prelude.{◌≡◌, ℕ, ◌<◌, Bool, false, List, ◌++◌, length, get_or};
ghost use Rattle.bits.specs.Strings.{xor_bits, zeros};
ghost use Rattle.division.specs.Division.{step, scale, power};
ghost use Rattle.registers.specs.Register.{entered};
ghost use Rattle.polynomials.specs.Product.{monomial, product, spread};

mod generators;
mod number16;
mod number32;
mod spread;

// A polynomial of lower degree than the generator.
pub trait Polynomial: Copy {
    // The generator's degree.
    const WIDTH: usize;

    ghost WIDTH: { ℕ };

    // The coefficients, from the highest power down.
    ghost coefficients: { Self → List Bool };

    fn zero() -> Self
        ensures { coefficients result ≡ zeros WIDTH };

    // x to the power n where that is below the generator's degree, else zero.
    fn monomial(n: usize) -> Self
        ensures { coefficients result ≡ monomial WIDTH n };

    fn plus(self, other: Self) -> Self
        ensures { coefficients result ≡ xor_bits (coefficients self) (coefficients other) };

    // x times the polynomial, modulo the generator.
    fn times_x(self, generator: Self) -> Self
        ensures { coefficients result ≡ step (coefficients generator) (coefficients self) false };

    // Whether a coefficient is set, counted from the highest. Behind the last there is none.
    fn is_set(self, place: usize) -> bool
        ensures { result ≡ get_or (coefficients self) place false };

    // The coefficients with a zero ahead of each: the upper half of them, and the lower.
    fn spread(self) -> (Self, Self)
        ensures { coefficients result.0 ++ coefficients result.1 ≡ spread (coefficients self) };

    ghost length_coefficients: { (polynomial : Self) → length (coefficients polynomial) ≡ WIDTH };

    ghost wide: { 0 < WIDTH };
}

// A generator, and the polynomials of lower degree.
pub trait Modulus {
    type Number: Polynomial;

    ghost generator: { List Bool };

    // x to the generator's degree times a polynomial.
    fn moved_up(polynomial: Self::Number) -> Self::Number
        ensures { Self.Number.coefficients result ≡ entered generator (Self.Number.coefficients polynomial) };

    ghost width: { length generator ≡ Self.Number.WIDTH };
}

// The generator's coefficients below its degree, which are what x to the degree leaves.
fn generator<M: Modulus>() -> M::Number
    ensures { M.Number.coefficients result ≡ M.generator }
{
    M::moved_up(M::Number::monomial(0))
}

// The polynomial or zero: a term of a product.
fn scaled<P: Polynomial>(set: bool, b: P) -> P
    ensures { P.coefficients result ≡ scale set (P.coefficients b) }
{
    if set { b } else { P::zero() }
}

// a times b, from the highest power of a down: the sum so far moves up a power, and b is added where the coefficient is set.
pub fn product<M: Modulus>(a: M::Number, b: M::Number) -> M::Number
    ensures { M.Number.coefficients result ≡ product M.generator (M.Number.coefficients a) (M.Number.coefficients b) }
{
    let generator = generator::<M>();
    let mut sum = M::Number::zero();
    for place in 0..M::Number::WIDTH {
        let term = scaled(a.is_set(place), b);
        sum = sum.times_x(generator).plus(term);
    }
    sum
}

// a times a, which has the coefficients of a at the even powers.
fn squared<M: Modulus>(a: M::Number) -> M::Number
    ensures { M.Number.coefficients result ≡ product M.generator (M.Number.coefficients a) (M.Number.coefficients a) }
{
    let (upper, lower) = a.spread();
    M::moved_up(upper).plus(lower)
}

// x to the power n: the square of x to half of n, and where n is odd x times that.
pub fn power<M: Modulus>(n: usize) -> M::Number
    ensures { M.Number.coefficients result ≡ power M.generator n }
{
    if n < M::Number::WIDTH {
        return M::Number::monomial(n);
    }
    let root = power::<M>(n / 2);
    let square = squared::<M>(root);
    if n % 2 == 1 {
        return square.times_x(generator::<M>());
    }
    square
}
