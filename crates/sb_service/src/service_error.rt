//! Why the text of a service isn't read.
ghost use Rattle.std.specs.Prelude.{◌≡◌};
ghost use Rattle.sb_service.specs.declared.service_error.ServiceError.TheVariants.{NoMemory};

use std::alloc::AllocError;
use thiserror::Error;

/// Why the text of a service isn't read: its first line that is no row, or has the key of an earlier one, or want of
/// memory. Lines are numbered from 1.
#[derive(Clone, Copy, Debug, PartialEq, Eq, Error)]
pub enum ServiceError {
    /// The line has more than 16,384 bytes, lacks its LF, hasn't two columns, or a field of it isn't of its type.
    #[error("line {line}: no row")]
    BadRow { line: u64 },
    /// The line `first` has the same key.
    #[error("line {line}: the key of line {first}")]
    TwiceKey { line: u64, first: u64 },
    #[error("out of memory")]
    NoMemory,
}

impl From<AllocError> for ServiceError {
    ghost from_gives = { λ _ error. error ≡ NoMemory };

    fn from(_: AllocError) -> Self {
        ServiceError::NoMemory
    }
}
