//! Batches of time: the batch of a time, and the first time of a batch.
ghost use Rattle.std.specs.Prelude.{◌≡◌, ◌<◌};
ghost use Rattle.sb_batcher.specs.Batches as spec;

use std::marker::Model;

/// Batches of time: batch 0 begins at a given time, and each batch is as long as the others. Times and lengths are in
/// milliseconds.
#[derive(Clone, Copy)]
pub struct Batcher {
    length: u64,
    from: i64,
}

impl Model for Batcher {
    ghost use Rattle.std.specs.Prelude.{◌<◌, ◌^◌};
    ghost use Rattle.sb_batcher.specs.Batches.{Batching};

    ghost Value = { Batching };

    ghost view = { λ b. record { length = b.length; from = b.from } };

    ghost inverse = { λ b. record { length = b.length; from = b.from } };

    ghost invariant = { λ b. (0 < b.length) × (b.length < 2 ^ 63) };
}

impl Batcher {
    /// Batches of this length, of which the first begins at `from`; `None` exactly where the length is below 1.
    pub fn new(length: i64, from: i64) -> Option<Batcher>
        ensures { result ≡ spec.batching_of length from }
    {
        if length < 1 {
            return None;
        }
        Some(Batcher {
            length: length as u64,
            from,
        })
    }

    /// The batch of a time: the floor of the quotient of what has passed since batch 0 began by the length of a
    /// batch. `None` exactly for the times before batch 0.
    pub fn batch_of(&self, t: i64) -> Option<u64>
        ensures { result ≡ spec.batch_of self.now t }
    {
        let passed = i128::from(t) - i128::from(self.from);
        u64::try_from(passed.div_euclid(i128::from(self.length))).ok()
    }

    /// The first time of a batch. `None` exactly where it is above the greatest `i64`.
    pub fn earliest_of(&self, b: u64) -> Option<i64>
        ensures { result ≡ spec.earliest_of self.now b }
    {
        let passed = i128::from(b) * i128::from(self.length);
        i64::try_from(i128::from(self.from) + passed).ok()
    }

    /// The length of a batch.
    pub fn length(&self) -> u64
        ensures value { result ≡ self.now.length }
        ensures some { 0 < result }
    {
        self.length
    }

    /// The time at which batch 0 begins.
    pub fn from(&self) -> i64
        ensures { result ≡ self.now.from }
    {
        self.from
    }
}
