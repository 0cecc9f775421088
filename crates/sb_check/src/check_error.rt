//! Why a program isn't accepted.
ghost use Rattle.std.specs.Prelude.{◌≡◌};
ghost use Rattle.sb_check.specs.declared.check_error.CheckError.TheVariants.{NoMemory};

use std::alloc::AllocError;
use thiserror::Error;

/// Why a program isn't accepted: the first fault of its first statement that has one, or want of memory. Statements are
/// numbered from 1, which is the batch head.
#[derive(Clone, Copy, Debug, PartialEq, Eq, Error)]
pub enum CheckError {
    /// A stream, a let or a service in it isn't declared as such by an earlier statement.
    #[error("statement {statement}: a name in it isn't declared")]
    Unknown { statement: u32 },
    /// It declares a name that an earlier statement declared, or one field twice.
    #[error("statement {statement}: a name is declared twice")]
    Twice { statement: u32 },
    /// There is no type for a part of it.
    #[error("statement {statement}: no type fits")]
    Mistyped { statement: u32 },
    /// A type in it has more than 64 nodes.
    #[error("statement {statement}: a type has more than 64 nodes")]
    TooLarge { statement: u32 },
    /// An expression in it has more than 1,024 leaves, or a stream its width times the leaves of its type.
    #[error("statement {statement}: a record may give more than 1024 values")]
    TooWide { statement: u32 },
    /// A key in it is of no key type.
    #[error("statement {statement}: no type of keys")]
    NotAKey { statement: u32 },
    #[error("out of memory")]
    NoMemory,
}

impl From<AllocError> for CheckError {
    ghost from_gives = { λ _ error. error ≡ NoMemory };

    fn from(_: AllocError) -> Self {
        CheckError::NoMemory
    }
}
