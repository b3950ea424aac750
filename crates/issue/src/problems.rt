//! Why a line is not followed.
use fault::Fault;
use std::alloc::AllocError;
use thiserror::Error;
use wording::Misreading;

// The issuer refuses, or the line cannot be understood. The calculator has some of these too; one enum for both would name
// problems that neither meets.
#[derive(Debug, Drop, Error)]
pub(crate) enum Problem {
    #[error(transparent)]
    Refused(#[from] Fault),
    #[error("? {0}")]
    Misread(#[from] Misreading),
    #[error("? no such order")]
    NoSuchOrder,
    #[error("? wrong number of arguments")]
    WrongNumberOfArguments,
    #[error("? key already given")]
    KeyAlreadyGiven,
    #[error("? no key")]
    NoKey,
    #[error("? no pads")]
    NoPads,
    #[error(transparent)]
    OutOfMemory(#[from(alloc)] AllocError),
}
