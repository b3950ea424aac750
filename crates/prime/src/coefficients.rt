//! Coefficients: the field of remainders by a prime modulus.
ghost use Rattle.std.specs.Prelude.{◌≡◌, ◌%◌, nat_eq};
ghost use Rattle.std.proofs.Common.{rules};
ghost use Rattle.std.specs.Cmp.Rules.{comparing};
ghost use Rattle.std.specs.Ordering.{on};
ghost use Rattle.field.specs.Coordinates.{Built};
ghost use Rattle.prime.specs.Residues.{residue_layout, just};
ghost use Rattle.prime.specs.ResidueLaws.{residues_equal_by_meaning};
ghost use Rattle.prime.specs.Towers.{coefficient_field, coefficient_laws, coefficient_coordinates};

use super::moduli::Modulus;
use fault::{Fault, Refusal};
use field::{Coordinates, Field, Quadratic};
use std::marker::PhantomData;

// A coefficient: any 16-bit number, which means its remainder by the modulus.
#[derive(Clone, Copy)]
pub struct Coefficient<M> {
    kept: u16,
    modulus: PhantomData<M>,
}

// Towers of one and of three quadratic extensions on the coefficients.
pub type ShortTower<M> = Quadratic<Coefficient<M>>;

pub type LongTower<M> = Quadratic<Quadratic<Quadratic<Coefficient<M>>>>;

impl<M: Modulus> Coefficient<M> {
    // What a number leaves. Other values are built in place: by one function for all of them, or by `from_coefficients` in
    // `new`, the compiler no longer knows that a sum is below the modulus, and divides again in an inverse.
    fn reduced(number: u32) -> Self
        ensures { result.kept ≡ number % M.Q }
    {
        Coefficient {
            kept: (number % M::modulus() as u32) as u16,
            modulus: PhantomData,
        }
    }

    // The coefficient of that number, which is refused with 1 where it is not below the modulus. As `try_from` it would
    // not say that the number is kept as it is.
    pub fn new(number: u16) -> Result<Self, Fault>
        ensures { Built (coefficient_field M.Q M.ROOT) (residue_layout M.Q) (just number) result }
    {
        if number < M::modulus() {
            Ok(Coefficient {
                kept: number,
                modulus: PhantomData,
            })
        } else {
            Err(Fault::of_call(Refusal::CoefficientOutOfRange))
        }
    }

    // The coefficient as a number below the modulus; the name says more than `u16::from` would.
    pub fn number(self) -> u16
        ensures { result ≡ self.kept % M.Q }
    {
        self.kept % M::modulus()
    }
}

// By remainder: a derived one would tell two kept numbers of one meaning apart.
impl<M: Modulus> PartialEq for Coefficient<M> {
    ghost eq = { on (λ x. x.kept % M.Q) nat_eq };

    ghost laws = { Prim.search (comparing, rules) };

    fn eq(&self, other: &Self) -> bool {
        self.number() == other.number()
    }
}

#[tactic(auto, using(crate::proofs::Reductions::reducing))]
impl<M: Modulus> Field for Coefficient<M> {
    ghost arithmetic = { coefficient_field M.Q M.ROOT };

    ghost laws = { coefficient_laws M.prime };

    ghost equal_by_meaning = { residues_equal_by_meaning M.Q M.ROOT (λ x. x.kept) };

    fn zero() -> Self {
        Coefficient {
            kept: 0,
            modulus: PhantomData,
        }
    }

    fn one() -> Self {
        Coefficient {
            kept: 1,
            modulus: PhantomData,
        }
    }

    fn add(self, other: Self) -> Self {
        Coefficient::reduced(self.kept as u32 + other.kept as u32)
    }

    fn neg(self) -> Self {
        let q = M::modulus();
        Coefficient {
            kept: (q - self.kept % q) % q,
            modulus: PhantomData,
        }
    }

    fn mul(self, other: Self) -> Self {
        Coefficient::reduced(self.kept as u32 * other.kept as u32)
    }

    fn square(self) -> Self {
        self.mul(self)
    }

    fn inverse(self) -> Result<Self, Fault> {
        if self.number() == 0 {
            Err(Fault::of_call(Refusal::ZeroHasNoInverse))
        } else {
            Ok(Coefficient {
                kept: M::inverse_entry(self.kept),
                modulus: PhantomData,
            })
        }
    }

    fn non_residue() -> Self {
        Coefficient {
            kept: 2,
            modulus: PhantomData,
        }
    }

    fn mul_by_non_residue(self) -> Self {
        Coefficient::reduced(2 * self.kept as u32)
    }

    fn sqrt_minus_one() -> Self {
        Coefficient {
            kept: M::sqrt_minus_one(),
            modulus: PhantomData,
        }
    }
}

impl<M: Modulus> Coordinates for Coefficient<M> {
    ghost layout = { residue_layout M.Q };

    ghost coordinates = { coefficient_coordinates M.prime };

    fn modulus() -> u16 {
        M::modulus()
    }

    fn has_count(count: usize) -> bool {
        count == 1
    }

    fn coefficient(self, power: usize) -> u16 {
        if power == 0 { self.number() } else { 0 }
    }

    fn with_coefficient(self, power: usize, coefficient: u16) -> Result<Self, Fault> {
        Self::check_range(power, coefficient)?;
        if power == 0 {
            Ok(Coefficient {
                kept: coefficient,
                modulus: PhantomData,
            })
        } else {
            Ok(self)
        }
    }
}
