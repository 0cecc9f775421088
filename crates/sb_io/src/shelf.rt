//! Files by name: what a shelf tells of them, and the cause of each fault.
ghost use Rattle.std.specs.Prelude.{ℕ, List};
ghost use Rattle.sb_io.specs.Shelf.{Content, IsFetched, Fetches, HasShelfCause};

use std::alloc::Global;
use thiserror::Error;

/// A whole file, or the news that it has more bytes than were asked for.
#[derive(Drop)]
pub enum Fetched {
    All(Vec<u8>),
    Longer,
}

/// Why a file isn't had: a fault of the shelf, which its count of faults shows, or want of memory.
#[derive(Clone, Copy, Debug, PartialEq, Eq, Error)]
pub enum ShelfError {
    #[error("the file can't be read")]
    Failed,
    #[error("out of memory")]
    NoMemory,
}

/// Files by name.
pub trait Shelf {
    /// What it tells of the file of each name.
    ghost content: { Self → List ℕ → Content };

    /// How often a fetch of each name failed, up to the greatest u64.
    ghost faults: { Self → List ℕ → ℕ };

    /// The bytes of the file of this name, or `Longer` exactly where it has more than `limit`.
    /// A name without a file is a fault.
    fn fetch(&mut self, alloc: Global, name: &str, limit: u64) -> Result<Fetched, ShelfError>
        ensures file { IsFetched limit (content self.old name.now) result }
        ensures frame { Fetches name.now (content self.old) (content self.new) (faults self.old)
            (faults self.new) }
        ensures cause { HasShelfCause name.now (faults self.old) (faults self.new) result };
}
