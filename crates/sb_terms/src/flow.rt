//! Checked streams.
use crate::term::Term;
use sqlite_items::Boxed;

/// A stream that has a type. Sources, services and lets go by their numbers, each kind from 0 in the program's order; the
/// stages before one stand inside it.
#[derive(Drop)]
pub enum Flow {
    /// The records of a source.
    Source(u64),
    /// The stream of a `let`.
    Let(u64),
    Merge(Boxed<Flow>, Boxed<Flow>),
    Map(Boxed<Flow>, Term),
    Filter(Boxed<Flow>, Term),
    FlatMap(Boxed<Flow>, Term),
    /// Each pair with what the service of this number has at its key.
    Join(Boxed<Flow>, u64),
}
