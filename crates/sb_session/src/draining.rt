//! The sums of all shards in one list of rows.
ghost use Rattle.std.specs.Prelude.{◌≡◌, ◌<◌, IfOk, Some, length, slice_get};
ghost use Rattle.sb_feed.specs.Jobs.{AreValid, IsLogOf, meant};
ghost use Rattle.sb_session.specs.Sessions.{job_by, AreAllRows, IsEach};
ghost use Rattle.sb_session.specs.Steps.{IsWhole};
ghost use Rattle.sb_shard.specs.Asks.{Drains};
ghost use Rattle.sb_shard.specs.Shards.{ShardValue, kept_by};

use sb_feed::{Cut, Feed, RowList};
use sb_job::KeySums;
use sb_laws::{Commuting, NoMemory, Semigroup};
use sb_shard::Shard;
use std::alloc::Global;

/// The rows of all shards of a cut, in which all chunks are worked: the sums of one shard after the other in one table, which is
/// sorted once. A key is in one shard alone. Takes n log n steps for n sums, which are moved.
pub fn drain_shards<F: Feed>(
    alloc: Global,
    feed: &F,
    cut: &Cut,
    shards: Vec<Shard<<F::M as Semigroup>::El>>,
) -> Result<RowList<<F::M as Semigroup>::El>, NoMemory>
where
    F::M: Commuting,
    requires number { length shards.items ≡ cut.now.shards }
    requires length { cut.now.records ≡ length (F.records feed.now) }
    requires chunk { 0 < cut.now.chunk }
    requires log { IsLogOf (meant F.M.valid F.M.add (F.monoids feed.now))
        (job_by (F.monoids feed.now) (F.records feed.now) cut.now).log }
    requires shards { IsEach (IsWhole F.M.valid F.M.add (job_by (F.monoids feed.now)
        (F.records feed.now) cut.now) cut.now) shards.items }
    ensures { IfOk result (AreAllRows F.M.valid F.M.add (job_by (F.monoids feed.now)
        (F.records feed.now) cut.now)) }
{
    if cut.shards() == 1 {
        return drain_only(alloc, feed, shards);
    }
    let mut all = KeySums::new(alloc);
    for shard in shards {
        let sums = shard.into_sums(alloc, feed)?;
        all.add_sums(alloc, feed, sums)?;
    }
    all.into_rows(alloc)
}

// The rows of the only shard.
fn drain_only<F: Feed>(
    alloc: Global,
    feed: &F,
    shards: Vec<Shard<<F::M as Semigroup>::El>>,
) -> Result<RowList<<F::M as Semigroup>::El>, NoMemory>
    requires one { length shards.items ≡ 1 }
    requires kept { IsEach (λ _ shard. AreValid (meant F.M.valid F.M.add (F.monoids feed.now))
        (kept_by shard)) shards.items }
    ensures { IfOk result (λ rows. (shard : ShardValue F.M.El)
        → slice_get shards.items 0 ≡ Some shard
        → Drains F.M.valid F.M.add (F.monoids feed.now) shard rows) }
{
    let mut shards = shards;
    match shards.pop() {
        Some(shard) => shard.into_rows(alloc, feed),
        None => Ok(RowList::new(alloc)),
    }
}
