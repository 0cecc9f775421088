//! The offline store of a shard: the sums of published batches, and the base of those that are expired.
#![tactic(auto)]

mod draining;
mod expiry;
mod listed;
mod offline;

pub use expiry::ExpireError;
pub use offline::{Offered, Offline};
pub use sb_laws::NoMemory;
