//! Why a rule of the grammar stops.
ghost use Rattle.std.specs.Prelude.{◌≡◌};
ghost use Rattle.sb_syntax.specs.declared.fault.Fault.TheVariants.{NoMemory};

use std::alloc::{AllocError, AllocFailed};

/// Why a rule reads nothing further.
#[derive(Clone, Copy, PartialEq, Eq)]
pub enum Fault {
    NoMemory,
    /// The rules are open in one another to the limit. Each takes a token, of which a statement has no more.
    Deep,
    /// No token is left, or the next is a bad one.
    Ended,
    /// The next token fits nowhere.
    Misfit,
    /// The next token fits, but the statement has no room for it.
    Spent,
}

impl From<AllocError> for Fault {
    ghost from_gives = { λ _ e. e ≡ NoMemory };

    fn from(_e: AllocError) -> Fault {
        Fault::NoMemory
    }
}

impl<T: Drop> From<AllocFailed<T>> for Fault {
    ghost from_gives = { λ _ e. e ≡ NoMemory };

    fn from(_e: AllocFailed<T>) -> Fault {
        Fault::NoMemory
    }
}
