//! Why words give no command.
use std::alloc::AllocError;
use thiserror::Error;

/// Why words give no command.
#[derive(Clone, Copy, Debug, PartialEq, Eq, Error)]
pub enum WordsError {
    /// The words are no command.
    #[error("the words are no command")]
    Usage,
    /// Want of memory.
    #[error("out of memory")]
    NoMemory,
}

impl From<AllocError> for WordsError {
    ghost use Rattle.std.specs.Prelude.{◌≡◌};
    ghost use Rattle.sb_words.specs.declared.words_error.WordsError.TheVariants.{NoMemory};

    ghost from_gives = { λ _ e. e ≡ NoMemory };

    fn from(_: AllocError) -> WordsError {
        WordsError::NoMemory
    }
}
