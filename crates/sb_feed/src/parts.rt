//! What records add to keys, one by one and chunk by chunk.
use crate::key::KeyBytes;
use sb_laws::Items;
use sb_text::Ranges;

/// What a record adds to a key: a value, in the record's batch, which is at most 65,535.
#[derive(Drop)]
pub struct Part<E> {
    pub key: KeyBytes,
    pub batch: u64,
    pub value: E,
}

/// A list of parts.
pub type PartList<E> = Items<Part<E>>;

/// The parts of the records of some chunks.
#[derive(Drop)]
pub struct Parcel<E> {
    pub chunks: Ranges,
    pub parts: PartList<E>,
}
