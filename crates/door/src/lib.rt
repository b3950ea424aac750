//! The engine's calls for programs in other languages: numbers and rows of numbers in, one number out. `include/door.h` declares
//! them for C. A row is a pointer and a count there; no call asks more of its arguments than that they are such rows.
#![tactic(auto)]

mod calls;
mod codes;
mod exports;
mod shifts;

pub use exports::{wz_decode, wz_encode, wz_inverse, wz_product, wz_tag};
pub use shifts::wz_shift;
