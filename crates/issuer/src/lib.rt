//! Issuing tickets: numbers are drawn as stubs, and each stub is sealed or voided.
#![tactic(auto)]

mod issuers;
mod marks;
mod stubs;
#[cfg(test)]
mod tests;
mod writing;

pub use issuers::Issuer;
pub use stubs::Stub;
