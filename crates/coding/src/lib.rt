//! Coded fields, encodings of values, and blocks.
#![tactic(auto)]

mod bits;
mod coded;
mod row;
mod values;

pub use coded::{CodedField, WideModulus};
pub use values::{block, block_size, decode, encode, encoded_size, from_block};
