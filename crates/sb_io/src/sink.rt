//! A receiver of bytes, and the cause of each fault.
ghost use Rattle.std.specs.Prelude.{ℕ, List, Option};
ghost use Rattle.sb_io.specs.Sink.{Puts, HasSinkCause};

use thiserror::Error;

/// Why bytes weren't written: a fault of the sink, which its count of faults shows, or want of memory.
#[derive(Clone, Copy, Debug, PartialEq, Eq, Error)]
pub enum SinkError {
    #[error("the bytes can't be written")]
    Failed,
    #[error("out of memory")]
    NoMemory,
}

/// A receiver of bytes.
pub trait Sink {
    /// The bytes that it received, where it tells them.
    ghost written: { Self → Option (List ℕ) };

    /// How often it failed, up to the greatest u64.
    ghost faults: { Self → ℕ };

    /// Writes the bytes: all of them at `Ok`, a prefix of them at `Failed`, none at `NoMemory`.
    fn put(&mut self, bytes: &[u8]) -> Result<(), SinkError>
        ensures bytes { Puts bytes.now (written self.old) (written self.new) result }
        ensures cause { HasSinkCause (faults self.old) (faults self.new) result };
}
