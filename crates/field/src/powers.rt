//! Coefficients by power of X.
ghost use Rattle.std.specs.Prelude.{◌≡◌, ◌==◌, slice_index};
ghost use Rattle.field.specs.Coordinates.{Layout, CoordinateLaws, InRange, Replaced, Built, extension_layout};
ghost use Rattle.field.specs.Quadratics.{quadratic_coordinates};

use super::extension::Quadratic;
use super::interface::Field;
use fault::{Fault, Part, Refusal};

// A field whose values are known by their coefficients of 1, X, X², .. below a modulus.
pub trait Coordinates: Field {
    ghost layout: { Layout };

    fn modulus() -> u16
        ensures { result ≡ layout.modulus };

    // Whether a value has so many coefficients.
    fn has_count(count: usize) -> bool
        ensures { result ≡ (count == layout.count) };

    // Refuses a number that is not below the modulus with 1 at that power.
    fn check_range(power: usize, coefficient: u16) -> Result<(), Fault>
        ensures { InRange layout power coefficient result }
    {
        if coefficient < Self::modulus() {
            Ok(())
        } else {
            Err(Fault::new(Refusal::CoefficientOutOfRange, Part::Call, power))
        }
    }

    // The coefficient at a power, and 0 where the value has none there.
    fn coefficient(self, power: usize) -> u16
        ensures { result ≡ slice_index (layout.by_power (Self.arithmetic.meaning self)) power };

    // The value with another coefficient at a power, and the same value where it has none there.
    // A number that is not below the modulus is refused with 1 at that power.
    fn with_coefficient(self, power: usize, coefficient: u16) -> Result<Self, Fault>
    where
        Self: Sized,
        ensures { Replaced Self.arithmetic layout self power coefficient result };

    // The value with these coefficients by power: refused with 3 for another count of them than a value has,
    // then with 1 at the first power whose coefficient is not below the modulus.
    fn from_coefficients(coefficients: &[u16]) -> Result<Self, Fault>
    where
        Self: Sized,
        ensures { Built Self.arithmetic layout coefficients.now result }
    {
        if !Self::has_count(coefficients.len()) {
            return Err(Fault::of_call(Refusal::WrongSize));
        }
        let mut value = Self::zero();
        for (power, &coefficient) in coefficients.iter().enumerate() {
            value = value.with_coefficient(power, coefficient)?;
        }
        Ok(value)
    }

    ghost coordinates: { CoordinateLaws Self.arithmetic layout };
}

impl<F: Coordinates> Coordinates for Quadratic<F> {
    ghost layout = { extension_layout F.layout };

    ghost coordinates = { quadratic_coordinates F.Field.laws F.Coordinates.coordinates };

    fn modulus() -> u16 {
        F::modulus()
    }

    fn has_count(count: usize) -> bool {
        count % 2 == 0 && F::has_count(count / 2)
    }

    fn coefficient(self, power: usize) -> u16 {
        if power % 2 == 0 {
            self.a0.coefficient(power / 2)
        } else {
            self.a1.coefficient(power / 2)
        }
    }

    fn with_coefficient(self, power: usize, coefficient: u16) -> Result<Self, Fault> {
        Self::check_range(power, coefficient)?;
        if power % 2 == 0 {
            let a0 = self.a0.with_coefficient(power / 2, coefficient)?;
            Ok(Quadratic { a0, ..self })
        } else {
            let a1 = self.a1.with_coefficient(power / 2, coefficient)?;
            Ok(Quadratic { a1, ..self })
        }
    }
}
