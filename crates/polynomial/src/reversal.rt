//! Bit reversal: from the order of a long tower to powers of X, and back.
ghost use Rattle.std.specs.Prelude.{◌≡◌};
ghost use Rattle.prime.specs.Towers.{long_tower};
ghost use Rattle.polynomial.specs.Polynomials.{polynomial_basis};
ghost use Rattle.polynomial.specs.BitReversal.{bit_reversal_of as reversed, KeepsSumsAndProducts};

use super::basis::PolynomialBasis;
use field::Coordinates;
use prime::{LongTower, Modulus};
use std::array;
use std::simd::prelude::*;

// The power of X at each place of a long tower: the place with its three binary digits reversed.
const BIT_REVERSAL: [usize; 8] = [0, 4, 2, 6, 1, 5, 3, 7];

// A list in the order of a long tower, by power of X, and a list by power in the order of the tower.
pub fn bit_reversed(list: [u16; 8]) -> [u16; 8]
    ensures { result ≡ reversed 3 list }
{
    u16x8::from_array(list).swizzle(BIT_REVERSAL).to_array()
}

impl<M: Modulus> From<LongTower<M>> for PolynomialBasis<M> {
    ghost from_gives = { λ x y. (polynomial_basis M.Q M.ROOT).meaning y ≡ reversed 3 ((long_tower M.Q M.ROOT).meaning x) };

    // The same value in the polynomial basis.
    fn from(x: LongTower<M>) -> Self
        ensures value { (polynomial_basis M.Q M.ROOT).meaning result ≡ reversed 3 ((long_tower M.Q M.ROOT).meaning x) }
        ensures keeps { KeepsSumsAndProducts (long_tower {M = M} M.Q M.ROOT) (polynomial_basis {M = M} M.Q M.ROOT) }
    {
        Self::keeping(array::from_fn(|power| x.coefficient(power)))
    }
}

impl<M: Modulus> From<PolynomialBasis<M>> for LongTower<M> {
    ghost from_gives = { λ x y. (long_tower M.Q M.ROOT).meaning y ≡ reversed 3 ((polynomial_basis M.Q M.ROOT).meaning x) };

    // The same value in the long tower.
    fn from(x: PolynomialBasis<M>) -> Self
        ensures value { (long_tower M.Q M.ROOT).meaning result ≡ reversed 3 ((polynomial_basis M.Q M.ROOT).meaning x) }
        ensures keeps { KeepsSumsAndProducts (polynomial_basis {M = M} M.Q M.ROOT) (long_tower {M = M} M.Q M.ROOT) }
    {
        // No `unwrap`: that this arm is not reached is found without a proof by hand.
        match LongTower::from_coefficients(&x.numbers()) {
            Ok(tower) => tower,
            Err(_) => unreachable!(),
        }
    }
}
