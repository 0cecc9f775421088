//! Why a statement isn't accepted.
ghost use Rattle.std.specs.Prelude.{◌≡◌};
ghost use Rattle.sb_terms.specs.declared.fault.Fault.TheVariants.{NoMemory};

use std::alloc::{AllocError, AllocFailed};

/// Why a statement isn't accepted.
#[derive(Clone, Copy, PartialEq, Eq)]
pub enum Fault {
    NoMemory,
    /// A name in it isn't declared as what it stands for.
    Unknown,
    /// A name is declared that was declared before.
    Twice,
    /// The tables have no type for it.
    Mistyped,
    /// Its type has more than 64 nodes.
    TooLarge,
    /// It may hold more than 1,024 single values for a record.
    TooWide,
    /// It is no type of keys.
    NotAKey,
}

impl From<AllocError> for Fault {
    ghost from_gives = { λ _ fault. fault ≡ NoMemory };

    fn from(_: AllocError) -> Self {
        Fault::NoMemory
    }
}

impl<T: Drop> From<AllocFailed<T>> for Fault {
    ghost from_gives = { λ _ fault. fault ≡ NoMemory };

    fn from(_: AllocFailed<T>) -> Self {
        Fault::NoMemory
    }
}
