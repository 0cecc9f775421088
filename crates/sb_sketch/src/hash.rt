//! The numbers that SHA-256 (FIPS 180-4) gives of items.
ghost use Rattle.std.specs.Prelude.{◌≡◌, ◌<◌, ◌^◌, ◌∷◌, take};
ghost use Rattle.std.specs.Int.{w64, from_be_bytes};
ghost use Rattle.sb_sketch.specs.Hash.{first_word};

use sha2::{Digest, Sha256};

// The first eight bytes of a digest, big endian.
fn word_in(digest: &[u8; 32]) -> u64
    ensures { result ≡ from_be_bytes w64 (take 8 digest.now) }
{
    u64::from_be_bytes([
        digest[0], digest[1], digest[2], digest[3], digest[4], digest[5], digest[6], digest[7],
    ])
}

/// The number that an item is hashed to.
pub fn word_of(item: &[u8]) -> u64
    ensures word { result ≡ first_word item.now }
    ensures fits { result < 2 ^ 64 }
{
    word_in(&Sha256::digest(item))
}

/// The number that an item is hashed to in a row.
pub fn word_in_row(row: u8, item: &[u8]) -> u64
    ensures { result ≡ first_word (row ∷ item.now) }
{
    let mut hasher = Sha256::new();
    hasher.update([row].as_slice());
    hasher.update(item);
    word_in(&hasher.finalize())
}
