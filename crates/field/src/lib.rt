//! Fields: the interface and its laws, and the quadratic extension of any field.
#![tactic(auto)]

mod extension;
mod interface;
mod powers;

pub use extension::Quadratic;
pub use interface::{Field, invert};
pub use powers::Coordinates;
