//! A shift played from its input: one line for each record of the tape.
#![tactic(auto)]

mod inputs;
mod lines;
mod shift;
#[cfg(test)]
mod tests;

pub use inputs::LONGEST_INPUT;
pub use lines::{Line, page};
pub use shift::play;
