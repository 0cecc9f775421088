//! Why a line isn't read.
ghost use Rattle.std.specs.Prelude.{◌≡◌};
ghost use Rattle.sb_log.specs.declared.line_error.LineError.TheVariants.{NoMemory};

use sb_check::LineKind;
use std::alloc::AllocError;

/// Why a line isn't read: the first thing that is wrong with it, or want of memory.
#[derive(Clone, Copy)]
pub enum LineError {
    Bad(LineKind),
    NoMemory,
}

impl From<AllocError> for LineError {
    ghost from_gives = { λ _ error. error ≡ NoMemory };

    fn from(_: AllocError) -> Self {
        LineError::NoMemory
    }
}
