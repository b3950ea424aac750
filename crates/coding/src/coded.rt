//! Coded fields: those whose values can be encoded in few enough bits, and carry tags.
ghost use Rattle.std.specs.Prelude.{◌≡◌, ◌≤◌, ℕ};
ghost use Rattle.coding.specs.Encoding.{Limits};
ghost use Rattle.std.proofs.Common.{rules, refl};
ghost use Rattle.coding.specs.LimitsOfModuli.{two_coefficients, eight_coefficients};

use field::Coordinates;
use polynomial::PolynomialBasis;
use prime::{LongTower, Modulus, P1021, P4093, ShortTower};

// A field that carries tags: its modulus, width and count of coefficients keep the limits. Contracts name `arithmetic`,
// `layout` and `bits` one by one: one member for the three cannot name those of the traits above in a default.
pub trait CodedField: Coordinates {
    ghost bits: { ℕ };

    // The bits of one encoded coefficient.
    fn width() -> u32
        ensures { result ≡ bits };

    // How many coefficients a value has.
    fn count() -> usize
        ensures { result ≡ Self.layout.count };

    ghost limits: { Limits Self.layout bits };
}

// A modulus of so many bits that two coefficients have room for a body's length, as those of six bits have not.
pub trait WideModulus: Modulus {
    ghost wide: { 9 ≤ Self.BITS };
}

impl WideModulus for P4093 {
    ghost wide = { Prim.search rules };
}

impl WideModulus for P1021 {
    ghost wide = { Prim.search rules };
}

// The bits of a coefficient by a modulus. The three impls below differ in their counts and limits alone; an associated
// type for the modulus, to have the width once, would be longer than these calls.
fn coefficient_width<M: Modulus>() -> u32
    ensures { result ≡ M.BITS }
{
    M::width() as u32
}

impl<M: WideModulus> CodedField for ShortTower<M> {
    ghost bits = { M.BITS };

    ghost limits = { let m = M.Modulus in two_coefficients Self.layout m.Q m.BITS m.ROOT M.prime refl M.WideModulus.wide refl };

    fn width() -> u32 {
        coefficient_width::<M>()
    }

    fn count() -> usize {
        2
    }
}

impl<M: Modulus> CodedField for LongTower<M> {
    ghost bits = { M.BITS };

    ghost limits = { let m = M.Modulus in eight_coefficients Self.layout m.Q m.BITS m.ROOT M.prime refl refl };

    fn width() -> u32 {
        coefficient_width::<M>()
    }

    fn count() -> usize {
        8
    }
}

impl<M: Modulus> CodedField for PolynomialBasis<M> {
    ghost bits = { M.BITS };

    ghost limits = { let m = M.Modulus in eight_coefficients Self.layout m.Q m.BITS m.ROOT M.prime refl refl };

    fn width() -> u32 {
        coefficient_width::<M>()
    }

    fn count() -> usize {
        8
    }
}
