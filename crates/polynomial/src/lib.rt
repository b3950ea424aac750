//! The polynomial basis of eight coefficients, and bit reversal between it and the long tower.
#![tactic(auto)]

mod basis;
mod lanes;
mod reversal;

pub use basis::PolynomialBasis;
pub use reversal::bit_reversed;
