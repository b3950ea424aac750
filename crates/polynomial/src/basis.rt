//! The polynomial basis: eight coefficients by power of X, with X⁸ = 2.
ghost use Rattle.std.specs.Prelude.{◌≡◌, nat_eq, nat_le};
ghost use Rattle.std.proofs.Common.{rules};
ghost use Rattle.std.specs.Cmp.Lexicographic.{pointwise};
ghost use Rattle.std.specs.Cmp.Rules.{comparing};
ghost use Rattle.std.specs.List.{position};
ghost use Rattle.std.specs.Ordering.{on};
ghost use Rattle.polynomial.specs.Polynomials.{polynomial_basis, polynomial_layout, eight_remainders};
ghost use Rattle.polynomial.specs.PolynomialLaws.{basis_laws, basis_coordinates, basis_equal_by_meaning};

use super::lanes::PseudoMersenne;
use fault::{Fault, Part, Refusal};
use field::{Coordinates, Field};
use prime::{LongTower, Modulus};
use std::marker::PhantomData;

// Eight coefficients by power of X. Each is any 16-bit number, and means its remainder by the modulus.
#[derive(Clone, Copy)]
pub struct PolynomialBasis<M> {
    pub(crate) kept: [u16; 8],
    modulus: PhantomData<M>,
}

impl<M: Modulus> PolynomialBasis<M> {
    pub(crate) fn keeping(kept: [u16; 8]) -> Self
        ensures { result.kept ≡ kept }
    {
        PolynomialBasis {
            kept,
            modulus: PhantomData,
        }
    }

    // The coefficients below the modulus.
    pub(crate) fn numbers(self) -> [u16; 8]
        ensures { result ≡ eight_remainders M.Q self.kept }
    {
        PseudoMersenne::of::<M>().remainders(self.kept)
    }
}

// By remainder: a derived one would tell two kept lists of one meaning apart.
impl<M: Modulus> PartialEq for PolynomialBasis<M> {
    ghost eq = { on (λ x. eight_remainders M.Q x.kept) (pointwise nat_eq) };

    ghost laws = { Prim.search (comparing, rules) };

    fn eq(&self, other: &Self) -> bool {
        self.numbers() == other.numbers()
    }
}

impl<M: Modulus> Field for PolynomialBasis<M> {
    ghost arithmetic = { polynomial_basis M.Q M.ROOT };

    ghost laws = { basis_laws M.prime };

    ghost equal_by_meaning = { basis_equal_by_meaning M.Q M.ROOT };

    fn zero() -> Self {
        Self::keeping([0; 8])
    }

    fn one() -> Self {
        Self::keeping([1, 0, 0, 0, 0, 0, 0, 0])
    }

    fn add(self, other: Self) -> Self {
        Self::keeping(PseudoMersenne::of::<M>().plus(self.kept, other.kept))
    }

    fn neg(self) -> Self {
        Self::keeping(PseudoMersenne::of::<M>().opposite(self.kept))
    }

    fn mul(self, other: Self) -> Self {
        Self::keeping(PseudoMersenne::of::<M>().times(self.kept, other.kept))
    }

    fn square(self) -> Self {
        self.mul(self)
    }

    fn sum_of_products(
        a: &(Self, Self),
        b: &(Self, Self),
        c: &(Self, Self),
        d: &(Self, Self),
    ) -> Self {
        Self::keeping(PseudoMersenne::of::<M>().sum_of_products(
            (a.0.kept, a.1.kept),
            (b.0.kept, b.1.kept),
            (c.0.kept, c.1.kept),
            (d.0.kept, d.1.kept),
        ))
    }

    // The candidate is tried: where its product with this value is one it is the inverse, however it was found,
    // so nothing is proved of `likely_inverse`. Where it fails, as for zero, the long tower decides, which refuses
    // zero and inverts every other value.
    fn inverse(self) -> Result<Self, Fault> {
        let candidate = Self::keeping(likely_inverse::<M>(self.kept));
        if self.mul(candidate) == Self::one() {
            return Ok(candidate);
        }
        let inverse = LongTower::from(self).inverse()?;
        Ok(Self::from(inverse))
    }

    // X itself
    fn non_residue() -> Self {
        Self::keeping([0, 1, 0, 0, 0, 0, 0, 0])
    }

    fn mul_by_non_residue(self) -> Self {
        Self::keeping(PseudoMersenne::of::<M>().times_x(self.kept))
    }

    fn sqrt_minus_one() -> Self {
        Self::keeping([M::sqrt_minus_one(), 0, 0, 0, 0, 0, 0, 0])
    }
}

// Where signs are turned: at the odd powers of X, of X² among the even ones, and of X⁴ among the fourth ones.
const ODD: [bool; 8] = [false, true, false, true, false, true, false, true];

const TWO_AND_SIX: [bool; 8] = [false, false, true, false, false, false, true, false];

const FOUR: [bool; 8] = [false, false, false, false, true, false, false, false];

// The inverse of f by norms. A polynomial times the same with its signs at odd powers turned has even powers alone,
// so three such products, in X, X² and X⁴, lead from f to a number, and the table has that number's inverse.
fn likely_inverse<M: Modulus>(f: [u16; 8]) -> [u16; 8] {
    let q = PseudoMersenne::of::<M>();
    let first = q.turned(f, ODD);
    let even = q.times(f, first);
    let second = q.turned(even, TWO_AND_SIX);
    let pair = q.times(even, second);
    let third = q.turned(pair, FOUR);
    let [number, ..] = q.times(pair, third);
    let factor = [M::inverse_entry(number), 0, 0, 0, 0, 0, 0, 0];
    let conjugates = q.times(q.times(first, second), third);
    q.times(conjugates, factor)
}

impl<M: Modulus> Coordinates for PolynomialBasis<M> {
    ghost layout = { polynomial_layout M.Q };

    ghost coordinates = { basis_coordinates M.prime };

    fn modulus() -> u16 {
        M::modulus()
    }

    fn has_count(count: usize) -> bool {
        count == 8
    }

    fn coefficient(self, power: usize) -> u16 {
        self.kept
            .get(power)
            .map_or(0, |number| *number % M::modulus())
    }

    fn with_coefficient(self, power: usize, coefficient: u16) -> Result<Self, Fault> {
        Self::check_range(power, coefficient)?;
        if power >= 8 {
            return Ok(self);
        }
        let mut kept = self.kept;
        kept[power] = coefficient;
        Ok(Self::keeping(kept))
    }

    // All eight at once, where the provided function would build as many values. One by one and not by `try_from`: copied in
    // pieces of other sizes, they cannot be read as one vector at once.
    fn from_coefficients(coefficients: &[u16]) -> Result<Self, Fault> {
        let &[a, b, c, d, e, f, g, h] = coefficients else {
            return Err(Fault::of_call(Refusal::WrongSize));
        };
        match first_from(coefficients, M::modulus()) {
            Some(power) => Err(Fault::new(Refusal::CoefficientOutOfRange, Part::Call, power)),
            None => Ok(Self::keeping([a, b, c, d, e, f, g, h])),
        }
    }
}

// The place of the first number that is q or more.
fn first_from(numbers: &[u16], q: u16) -> Option<usize>
    ensures { result ≡ position (λ n. nat_le q n) numbers.now }
{
    numbers.iter().position(|number| *number >= q)
}
