//! A shard: the sums of some keys by batch, expired, published or online, and the chunks that they cover.
#![tactic(auto)]

mod answer;
mod shard;

pub use answer::{Answer, AskError};
pub use sb_laws::NoMemory;
pub use sb_offline::ExpireError;
pub use shard::Shard;
