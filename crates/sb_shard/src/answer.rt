//! What a shard answers.
use sb_feed::Sums;
use sb_laws::NoMemory;
use sb_text::Ranges;
use thiserror::Error;

/// What a shard holds of a key: its base, which has the batches below the floor, and one sum a batch.
#[derive(Drop)]
pub struct Answer<E> {
    pub base: Option<E>,
    pub published: Sums<E>,
    pub online: Sums<E>,
    pub cover: Ranges,
    pub published_to: u64,
    pub floor: u64,
}

/// Why a shard gives no answer.
#[derive(Clone, Copy, Debug, PartialEq, Eq, Error)]
pub enum AskError {
    /// The base has the sums of later batches than the asked one already.
    #[error("batch {asked} is expired: the floor is {floor}")]
    Expired { asked: u64, floor: u64 },
    #[error("out of memory")]
    NoMemory,
}

impl From<NoMemory> for AskError {
    ghost use Rattle.std.specs.Prelude.{◌≡◌};
    ghost use Rattle.sb_shard.specs.declared.answer.AskError.TheVariants.{NoMemory as no_memory};

    ghost from_gives = { λ _ e. e ≡ no_memory };

    fn from(_: NoMemory) -> AskError {
        AskError::NoMemory
    }
}
