//! Why a line has no value for an answer.
use fault::Fault;
use std::alloc::AllocError;
use thiserror::Error;
use wording::Misreading;

// The line is refused, or cannot be understood. The program of orders has some of these too; one enum for both would name
// problems that neither meets.
#[derive(Debug, Drop, Error)]
pub(crate) enum Problem {
    #[error(transparent)]
    Refused(#[from] Fault),
    #[error("? {0}")]
    Misread(#[from] Misreading),
    #[error("? no such form")]
    NoSuchForm,
    #[error("? no such operation")]
    NoSuchOperation,
    #[error("? wrong number of arguments")]
    WrongNumberOfArguments,
    #[error("? not a value")]
    NotAValue,
    #[error(transparent)]
    OutOfMemory(#[from(alloc)] AllocError),
}
