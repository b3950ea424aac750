//! Prime fields: the moduli, their coefficients, and the towers that stand on them.
#![tactic(auto)]

mod coefficients;
mod moduli;
mod tables;

pub use coefficients::{Coefficient, LongTower, ShortTower};
pub use moduli::{Modulus, P1021, P4093, TabledModulus};
