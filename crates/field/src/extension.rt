//! The quadratic extension of any field.
ghost use Rattle.std.specs.Prelude.{◌≡◌};
ghost use Rattle.field.specs.Extensions.{norm};
ghost use Rattle.field.specs.Quadratics.{quadratic, quadratic_laws, quadratic_equal_by_meaning};

use super::interface::Field;
use fault::Fault;

// a0 + a1·g, where g·g is the non-residue of the field below.
#[derive(Clone, Copy, PartialEq)]
pub struct Quadratic<F> {
    pub a0: F,
    pub a1: F,
}

impl<F: Field> Quadratic<F> {
    // a0² − s·a1², where s is the non-residue below.
    fn norm(self) -> F
        ensures { F.arithmetic.meaning result ≡ norm F.arithmetic (λ x. x.a0) (λ x. x.a1) self }
    {
        let low = self.a0.square();
        let high = self.a1.square();
        low.add(high.mul_by_non_residue().neg())
    }
}

impl<F: Field> Field for Quadratic<F> {
    ghost arithmetic = { quadratic F.arithmetic };

    ghost laws = { quadratic_laws F.Field.laws };

    ghost equal_by_meaning = { quadratic_equal_by_meaning F.Field.laws F.Field.equal_by_meaning };

    fn zero() -> Self {
        Quadratic {
            a0: F::zero(),
            a1: F::zero(),
        }
    }

    fn one() -> Self {
        Quadratic {
            a0: F::one(),
            a1: F::zero(),
        }
    }

    fn add(self, other: Self) -> Self {
        Quadratic {
            a0: self.a0.add(other.a0),
            a1: self.a1.add(other.a1),
        }
    }

    fn neg(self) -> Self {
        Quadratic {
            a0: self.a0.neg(),
            a1: self.a1.neg(),
        }
    }

    fn mul(self, other: Self) -> Self {
        let low = self.a0.mul(other.a0);
        let high = self.a1.mul(other.a1);
        let left = self.a0.mul(other.a1);
        let right = self.a1.mul(other.a0);
        Quadratic {
            a0: low.add(high.mul_by_non_residue()),
            a1: left.add(right),
        }
    }

    fn square(self) -> Self {
        let lower = self.a0.square();
        let upper = self.a1.square();
        let cross = self.a0.mul(self.a1);
        Quadratic {
            a0: lower.add(upper.mul_by_non_residue()),
            a1: cross.add(cross),
        }
    }

    // a0/d − (a1/d)·g, where d is the norm.
    fn inverse(self) -> Result<Self, Fault> {
        let factor = self.norm().inverse()?;
        Ok(Quadratic {
            a0: self.a0.mul(factor),
            a1: self.a1.mul(factor).neg(),
        })
    }

    // g itself
    fn non_residue() -> Self {
        Quadratic {
            a0: F::zero(),
            a1: F::one(),
        }
    }

    fn mul_by_non_residue(self) -> Self {
        Quadratic {
            a0: self.a1.mul_by_non_residue(),
            a1: self.a0,
        }
    }

    fn sqrt_minus_one() -> Self {
        Quadratic {
            a0: F::sqrt_minus_one(),
            a1: F::zero(),
        }
    }
}
