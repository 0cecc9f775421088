//! The online store of a shard: the sums of what was applied, by batch, and the chunks that it covers.
#![tactic(auto)]

mod online;
mod tables;

pub use online::Online;
pub use sb_laws::NoMemory;
