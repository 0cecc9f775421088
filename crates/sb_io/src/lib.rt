//! The outside: a shelf of files by name and a sink of bytes, over memory and over the operating system.
#![tactic(auto)]

mod memory;
mod shelf;
mod sink;
mod system;

pub use memory::{MemShelf, MemSink, NoMemory};
pub use shelf::{Fetched, Shelf, ShelfError};
pub use sink::{Sink, SinkError};
pub use system::{FsShelf, StdSink};
