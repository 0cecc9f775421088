//! Jobs: the parts that records give to keys, and how records and keys are divided into batches, chunks and shards.
#![tactic(auto)]

mod cut;
mod family;
mod feed;
mod index;
mod key;
mod lists;
mod parts;
mod rows;

pub use cut::Cut;
pub use family::{Family, Printed};
pub use feed::Feed;
pub use index::BatchIndex;
pub use key::KeyBytes;
pub use lists::push_at;
pub use parts::{Parcel, Part, PartList};
pub use rows::{RowList, Rows, Sums};
pub use sb_laws::NoMemory;
