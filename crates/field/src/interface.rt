//! The interface of a field.
ghost use Rattle.std.specs.Prelude.{◌≡◌};
ghost use Rattle.field.specs.Fields.{Arithmetic, Laws, EqualByMeaning, SumOfProducts};
ghost use Rattle.field.specs.Inverses.{InverseAnswer, UniqueInversesAtEveryHeight};

use fault::Fault;

// The values of a field. A value means a list of numbers, and two values of one meaning count as the same.
pub trait Field: Copy + PartialEq {
    ghost arithmetic: { Arithmetic Self };

    fn zero() -> Self
        ensures { arithmetic.meaning result ≡ arithmetic.zero };

    fn one() -> Self
        ensures { arithmetic.meaning result ≡ arithmetic.one };

    fn add(self, other: Self) -> Self
        ensures { arithmetic.meaning result ≡ arithmetic.plus (arithmetic.meaning self) (arithmetic.meaning other) };

    fn neg(self) -> Self
        ensures { arithmetic.meaning result ≡ arithmetic.opposite (arithmetic.meaning self) };

    fn mul(self, other: Self) -> Self
        ensures { arithmetic.meaning result ≡ arithmetic.times (arithmetic.meaning self) (arithmetic.meaning other) };

    // The product of the value with itself.
    fn square(self) -> Self
        ensures { arithmetic.meaning result ≡ arithmetic.times (arithmetic.meaning self) (arithmetic.meaning self) };

    // The sum of the products of the four pairs. An implementation may reduce the sum once; where factors stay
    // the same over a loop, they should be the second ones. Four pairs and no list, since so many products fit where they
    // are gathered; by reference, since the check gives an implementation on a generic type no clause on pairs by value.
    fn sum_of_products(
        a: &(Self, Self),
        b: &(Self, Self),
        c: &(Self, Self),
        d: &(Self, Self),
    ) -> Self
    where
        Self: Sized,
        ensures { SumOfProducts arithmetic a.now b.now c.now d.now result }
    {
        let first = a.0.mul(a.1).add(b.0.mul(b.1));
        let last = c.0.mul(c.1).add(d.0.mul(d.1));
        first.add(last)
    }

    // The value whose product with this one is one; zero, and nothing else, is refused.
    fn inverse(self) -> Result<Self, Fault>
        ensures { InverseAnswer arithmetic self result };

    // A value that is no square.
    fn non_residue() -> Self
        ensures { arithmetic.meaning result ≡ arithmetic.non_residue };

    fn mul_by_non_residue(self) -> Self
        ensures { arithmetic.meaning result ≡ arithmetic.times arithmetic.non_residue (arithmetic.meaning self) };

    // A value whose square is the opposite of one.
    fn sqrt_minus_one() -> Self
        ensures { arithmetic.meaning result ≡ arithmetic.sqrt_minus_one };

    ghost laws: { Laws arithmetic };

    // Two values are equal where they mean the same.
    ghost equal_by_meaning: { EqualByMeaning arithmetic Self.eq };
}

// The inverse of a value of any field. In that field, and in the tower of each height on it, it is the only one.
pub fn invert<F: Field>(x: F) -> Result<F, Fault>
    ensures answer { InverseAnswer F.arithmetic x result }
    ensures unique_at_every_height { UniqueInversesAtEveryHeight F.arithmetic }
{
    x.inverse()
}
