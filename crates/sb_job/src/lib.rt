//! The sum of each key, as it grows, and the rows that it becomes; the jobs that make the rows of batches; sums of a key by
//! batch; sets of keys.
#![tactic(auto)]

mod by_batch;
mod halving;
mod jobs;
mod key_set;
mod key_sums;
mod lists;
mod seed;
mod splitting;

pub use by_batch::{add_asked, is_key, push_found};
pub use halving::halvings;
pub use jobs::job;
pub use key_set::KeySet;
pub use key_sums::KeySums;
pub use lists::{drop_first, up_to};
pub use seed::Seed;
pub use splitting::{split_parcel, split_rows};
