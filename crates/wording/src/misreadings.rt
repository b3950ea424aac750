//! Why a line, or a word of it, cannot be understood.
use std::alloc::AllocError;
use thiserror::Error;

#[derive(Clone, Copy, Debug, PartialEq, Eq, Error)]
pub enum Misreading {
    #[error("line too long")]
    LineTooLong,
    #[error("not text")]
    NotText,
    #[error("not a number")]
    NotANumber,
    #[error("not bytes")]
    NotBytes,
    #[error(transparent)]
    OutOfMemory(#[from(alloc)] AllocError),
}
