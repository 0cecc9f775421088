//! What the records of a feed emit.
ghost use Rattle.std.specs.Prelude.{◌≡◌, ◌≤◌, max, length, map, IfOk};
ghost use Rattle.std.specs.List.{AllByRecursion};
ghost use Rattle.sb_feed.specs.Jobs.{IsRecord, meant};
ghost use Rattle.sb_feed.specs.Limits.{most_batches};
ghost use Rattle.sb_feed.specs.Places.{batch_count};
ghost use Rattle.sb_job.specs.Emitted.{parts_where, is_between};

use sb_feed::{Feed, Part};
use sb_laws::{NoMemory, Semigroup};
use std::alloc::Global;

/// The parts of the records from one position on and below another.
pub fn parts_between<F: Feed>(
    alloc: Global,
    feed: &F,
    from: u64,
    to: u64,
) -> Result<Vec<Part<<F::M as Semigroup>::El>>, NoMemory>
    requires from { from ≤ to }
    requires to { to ≤ length (F.records feed.now) }
    ensures { IfOk result (λ parts. parts.items
        ≡ parts_where (is_between from to) 0 (F.records feed.now)) }
{
    let mut parts = Vec::new(alloc);
    for i in from..to {
        feed.emit(alloc, i, &mut parts)?;
    }
    Ok(parts)
}

/// One more than the greatest batch, and 0 without records. At most 65,536.
pub fn batch_count<F: Feed>(feed: &F) -> u64
    ensures count { result ≡ batch_count (map (λ r. r.batch) (F.records feed.now)) }
    ensures limit { result ≤ most_batches }
    ensures valid { AllByRecursion (IsRecord (meant F.M.valid F.M.add (F.monoids feed.now)))
        (F.records feed.now) }
{
    let mut count = 0;
    for i in 0..feed.len() {
        count = greater(count, feed.batch(i) + 1);
    }
    count
}

fn greater(a: u64, b: u64) -> u64
    ensures { result ≡ max a b }
{
    if a < b { b } else { a }
}
