//! A session over shards: chunks of a feed are worked into the shards, batches are published, and reads merge what the key's
//! shard holds. Threads are started only to add the records of a batch, and have ended when the call returns.
#![tactic(auto)]

mod draining;
mod emitting;
mod reading;
mod session;

pub use reading::Reading;
pub use session::Session;
