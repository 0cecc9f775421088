//! How records are divided into chunks and keys among shards.
ghost use Rattle.std.specs.Prelude.{◌≡◌, ◌↔◌, ◌<◌, ◌≤◌, ℕ, ◌+◌, ◌*◌, ◌/◌, min, IsSome, IfSome};
ghost use Rattle.sb_feed.specs.Keys.{fnv_1a, key_hash, shard_of};
ghost use Rattle.sb_feed.specs.Cuts.{chunk_count, IsCut};
ghost use Rattle.sb_feed.specs.Limits.{most_shards};

use crate::key::KeyBytes;
use std::marker::Model;

const MOST_RECORDS_OF_A_CHUNK: u64 = 1 << 20;

const MOST_SHARDS: u32 = 64;

const MOST_CHUNKS: u64 = 1 << 16;

const OFFSET_BASIS: u64 = 14695981039346656037;

const PRIME: u64 = 1099511628211;

/// How a log is divided: its records into chunks, and the keys among shards.
#[derive(Drop)]
pub struct Cut {
    records: u64,
    chunk: u64,
    shards: u32,
}

impl Model for Cut {
    ghost use Rattle.sb_feed.specs.Cuts.{CutValue, IsCut};

    ghost Value = { CutValue };

    ghost view = { λ c. record { records = c.records; chunk = c.chunk; shards = c.shards } };

    ghost invariant = { λ c. IsCut (record { records = c.records; chunk = c.chunk; shards = c.shards }) };
}

impl Cut {
    /// A log of so many records in chunks of `chunk` records each, the last with what is left, and so many shards.
    /// `None` exactly where a chunk has none or more than 1,048,576 records, there are no or more than 64 shards,
    /// or there would be more than 65,536 chunks.
    pub fn new(records: u64, chunk: u64, shards: u32) -> Option<Cut>
        ensures cut { IfSome result (λ cut. cut
            ≡ record { records = records; chunk = chunk; shards = shards }) }
        ensures limits { IsSome result ↔ IsCut
            (record { records = records; chunk = chunk; shards = shards }) }
    {
        if chunk == 0 || chunk > MOST_RECORDS_OF_A_CHUNK || shards == 0 || shards > MOST_SHARDS {
            return None;
        }
        if records.div_ceil(chunk) > MOST_CHUNKS {
            return None;
        }
        Some(Cut {
            records,
            chunk,
            shards,
        })
    }

    /// The number of chunks.
    pub fn chunks(&self) -> u64
        ensures { result ≡ chunk_count self.now }
    {
        self.records.div_ceil(self.chunk)
    }

    /// The number of shards.
    pub fn shards(&self) -> u32
        ensures number { result ≡ self.now.shards }
        ensures limits { (1 ≤ result) × (result ≤ most_shards) }
    {
        self.shards
    }

    /// The chunk of a position.
    pub fn chunk_of(&self, position: u64) -> u64
        requires { position < self.now.records }
        ensures chunk { result ≡ position / self.now.chunk }
        ensures there { result < chunk_count self.now }
    {
        position / self.chunk
    }

    /// The chunk's first position, and the position after its last.
    pub fn bounds(&self, chunk: u64) -> (u64, u64)
        requires { chunk < chunk_count self.now }
        ensures bounds { result ≡ (
          chunk * self.now.chunk,
          min ((chunk + 1) * self.now.chunk)
              self.now.records,
        ) }
        ensures some { result.0 < result.1 }
        ensures positions { (i : ℕ) → i < self.now.records → ((result.0 ≤ i) × (i < result.1))
            ↔ (i / self.now.chunk ≡ chunk) }
    {
        let from = chunk * self.chunk;
        (from, self.records.min(from + self.chunk))
    }

    /// The shard of a key, by FNV-1a with 64 bits over the store's number, in four bytes with the highest first, and
    /// the key's text.
    pub fn shard_of(&self, key: &KeyBytes) -> u32
        ensures shard { result ≡ shard_of self.now.shards key.now }
        ensures there { result < self.now.shards }
    {
        (hash(key) % u64::from(self.shards)) as u32
    }
}

fn hash(key: &KeyBytes) -> u64
    ensures { result ≡ key_hash key.now }
{
    let store = hash_onto(OFFSET_BASIS, &key.store.to_be_bytes());
    hash_onto(store, key.text.as_bytes())
}

// FNV-1a (Fowler, Noll and Vo): http://www.isthe.com/chongo/tech/comp/fnv/
fn hash_onto(hash: u64, bytes: &[u8]) -> u64
    ensures { result ≡ fnv_1a hash bytes.now }
{
    let mut hash = hash;
    for byte in bytes {
        hash = (hash ^ u64::from(*byte)).wrapping_mul(PRIME);
    }
    hash
}
