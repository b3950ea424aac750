//! Lines of words, as the programs read them that answer one line at a time.
#![tactic(auto)]

mod lines;
mod misreadings;
#[cfg(test)]
mod tests;
mod words;

pub use lines::Line;
pub use misreadings::Misreading;
pub use words::{bytes, hexadecimal, number, small_number};
