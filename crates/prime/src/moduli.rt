//! Prime moduli and what a field of remainders needs of each.
ghost use Rattle.std.specs.Prelude.{◌≡◌, ℕ};
ghost use Rattle.prime.specs.Moduli.{PrimeModulus, InverseTable, InverseEntry};
ghost use Rattle.prime.specs.Primes.{prime_4093, prime_1021};

use super::tables::{INVERSES_1021, INVERSES_4093};

// A prime modulus, as a type, so that a coefficient's type says by what it is reduced. The two below write `modulus` and
// `inverse_entry` out: by the one given here and one over both tables the inverse of a coefficient takes twice the time.
pub trait Modulus: Copy {
    ghost Q: { ℕ };

    ghost BITS: { ℕ };

    ghost ROOT: { ℕ };

    ghost mark: { Self };

    // The modulus.
    const Q: u16;

    // The number of bits of the largest coefficient.
    const BITS: u16;

    // A number whose square leaves what −1 does.
    const ROOT: u16;

    // A value of the type. No value keeps it: a coefficient is told by its type alone.
    fn marker() -> Self
        ensures { result ≡ mark };

    fn modulus() -> u16
        ensures { result ≡ Q }
    {
        Self::Q
    }

    fn width() -> u16
        ensures { result ≡ BITS }
    {
        Self::BITS
    }

    fn sqrt_minus_one() -> u16
        ensures { result ≡ ROOT }
    {
        Self::ROOT
    }

    // The inverse of what x leaves, and 0 where x leaves 0: a caller that knows which need not branch again.
    fn inverse_entry(x: u16) -> u16
        ensures { InverseEntry Q x result };

    ghost prime: { PrimeModulus Q BITS ROOT };
}

// A modulus whose inverses stand in a table.
pub trait TabledModulus: Modulus {
    // The inverse of each number below the modulus, and 0 for 0.
    fn inverses() -> &'static [u16]
        ensures { InverseTable Self.Q result.now };
}

#[derive(Clone, Copy)]
pub struct P4093;

impl Modulus for P4093 {
    ghost Q = { 4093 };

    ghost BITS = { 12 };

    ghost ROOT = { 1059 };

    ghost mark = { record {} };

    ghost prime = { prime_4093 };

    const Q: u16 = 4093;

    const BITS: u16 = 12;

    const ROOT: u16 = 1059;

    fn marker() -> Self {
        P4093
    }

    fn modulus() -> u16 {
        4093
    }

    fn inverse_entry(x: u16) -> u16 {
        Self::inverses()[(x % 4093) as usize]
    }
}

impl TabledModulus for P4093 {
    fn inverses() -> &'static [u16] {
        &INVERSES_4093
    }
}

#[derive(Clone, Copy)]
pub struct P1021;

impl Modulus for P1021 {
    ghost Q = { 1021 };

    ghost BITS = { 10 };

    ghost ROOT = { 374 };

    ghost mark = { record {} };

    ghost prime = { prime_1021 };

    const Q: u16 = 1021;

    const BITS: u16 = 10;

    const ROOT: u16 = 374;

    fn marker() -> Self {
        P1021
    }

    fn modulus() -> u16 {
        1021
    }

    fn inverse_entry(x: u16) -> u16 {
        Self::inverses()[(x % 1021) as usize]
    }
}

impl TabledModulus for P1021 {
    fn inverses() -> &'static [u16] {
        &INVERSES_1021
    }
}
