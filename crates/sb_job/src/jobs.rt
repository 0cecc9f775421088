//! The job of some batches: the sums of what their records add to keys.
ghost use Rattle.std.specs.Prelude.{◌≡◌, ◌<◌, ◌++◌, List, map, length, slice_index, IfOk};
ghost use Rattle.std.specs.List.{AllByRecursion, flat_map};
ghost use Rattle.std.specs.Thread.{IsSync};
ghost use Rattle.sb_feed.specs.declared.key.KeyBytes.{KeyBytes as Key};
ghost use Rattle.sb_feed.specs.Feeds.{parts_at};
ghost use Rattle.sb_feed.specs.Index.{positions_from};
ghost use Rattle.sb_feed.specs.Jobs.{AreValid, IsRecord, meant};
ghost use Rattle.sb_feed.specs.Stands.{keyed_values};
ghost use Rattle.sb_job.specs.Batches.{AreBatchRows};
ghost use Rattle.sb_job.specs.Emitted.{is_between, parts_where};
ghost use Rattle.sb_job.specs.Sums.{AreKeySums};

use crate::halving::halvings;
use crate::key_sums::KeySums;
use crate::seed::Seed;
use sb_feed::{Family, Feed, RowList, Rows};
use sb_laws::{NoMemory, Semigroup};
use std::alloc::Global;
use std::random::RandomSource;
use std::thread::{Threads, join};

const MOST_BATCHES: u64 = 1 << 16;

// So few positions aren't halved: a thread would cost more than it saves.
const FEW_POSITIONS: usize = 512;

/// The rows of the batches from `from` on and below `to`: each key that their records add to, with its fold in log
/// order. The dictionaries need not commute. Looks at the records of these batches alone; the positions of several
/// batches are sorted first. Many records are added in as many parts as there are
/// processors, each in a table of its own, whose seed is drawn.
pub fn job<R: Threads + RandomSource + Sync, M: Semigroup + Sync, F: Feed<M = M> + Sync>(
    rt: &R,
    alloc: Global,
    feed: &F,
    from: u64,
    to: u64,
) -> Result<Rows<M::El>, NoMemory>
where
    M::El: Send + Sync,
    ensures batches { IfOk result (λ rows. (rows.from ≡ from) × (rows.to ≡ to)) }
    ensures rows { IfOk result (AreBatchRows (meant M.valid M.add (F.monoids feed.now))
        (F.records feed.now)) }
{
    // The feed tells with its length that its records are valid.
    let _ = feed.len();
    let rows = rows_between(rt, alloc, feed, from, to)?;
    Ok(Rows { from, to, rows })
}

// The positions of one batch are there, in order.
fn rows_between<R: Threads + RandomSource + Sync, M: Semigroup + Sync, F: Feed<M = M> + Sync>(
    rt: &R,
    alloc: Global,
    feed: &F,
    from: u64,
    to: u64,
) -> Result<RowList<M::El>, NoMemory>
where
    M::El: Send + Sync,
    requires { AllByRecursion (IsRecord (meant M.valid M.add (F.monoids feed.now)))
        (F.records feed.now) }
    ensures { IfOk result (AreKeySums (meant M.valid M.add (F.monoids feed.now))
        (keyed_values (parts_where
        (λ i. is_between from to (slice_index (map (λ r. r.batch) (F.records feed.now)) i)) 0
        (F.records feed.now)))) }
{
    if from < to && to - from == 1 {
        return rows_at(rt, alloc, feed, feed.positions(from));
    }
    let positions = positions_between(alloc, feed, from, to)?;
    rows_at(rt, alloc, feed, positions.as_slice())
}

// The positions of the records in the batches from one on and below another, in rising order.
fn positions_between<F: Feed>(
    alloc: Global,
    feed: &F,
    from: u64,
    to: u64,
) -> Result<Vec<u64>, NoMemory>
    requires { AllByRecursion (IsRecord (meant F.M.valid F.M.add (F.monoids feed.now)))
        (F.records feed.now) }
    ensures { IfOk result (λ positions. positions.items
        ≡ positions_from (is_between from to) 0 (map (λ r. r.batch) (F.records feed.now))) }
{
    let mut positions = Vec::new(alloc);
    for batch in from..to.min(MOST_BATCHES) {
        positions.extend_from_slice(feed.positions(batch))?;
    }
    positions.sort_unstable();
    Ok(positions)
}

// The sum of each key's parts in the records at these positions, as rows.
fn rows_at<R: Threads + RandomSource + Sync, M: Semigroup + Sync, F: Feed<M = M> + Sync>(
    rt: &R,
    alloc: Global,
    feed: &F,
    positions: &[u64],
) -> Result<RowList<M::El>, NoMemory>
where
    M::El: Send + Sync,
    requires records { AllByRecursion (IsRecord (meant M.valid M.add (F.monoids feed.now)))
        (F.records feed.now) }
    requires positions { AllByRecursion (λ i. i < length (F.records feed.now)) positions.now }
    ensures { IfOk result (AreKeySums (meant M.valid M.add (F.monoids feed.now))
        (keyed_values (flat_map (parts_at (F.records feed.now)) positions.now))) }
{
    let depth = depth_of(rt, positions.len());
    let sums = sum_halves(rt, alloc, feed, positions, depth, Seed::drawn(rt))?;
    let rows = sums.into_rows(alloc)?;
    Ok(rows)
}

// How often so many positions are halved. The number of processors is asked for only where it counts: that takes a file.
fn depth_of<R: Threads>(rt: &R, positions: usize) -> u32 {
    if positions < FEW_POSITIONS {
        0
    } else {
        halvings(rt)
    }
}

// Adds the records at positions, halved so often: those at the first half and at the second side by side, and then the sums of
// the second behind those of the first.
#[cycle(halves)]
fn sum_halves<R: Threads + Sync, M: Semigroup + Sync, F: Feed<M = M> + Sync>(
    rt: &R,
    alloc: Global,
    feed: &F,
    positions: &[u64],
    depth: u32,
    seed: Seed,
) -> Result<KeySums<M::El>, NoMemory>
where
    M::El: Send + Sync,
    requires records { AllByRecursion (IsRecord (meant M.valid M.add (F.monoids feed.now)))
        (F.records feed.now) }
    requires positions { AllByRecursion (λ i. i < length (F.records feed.now)) positions.now }
    ensures { IfOk result (AreKeySums (meant M.valid M.add (F.monoids feed.now))
        (keyed_values (flat_map (parts_at (F.records feed.now)) positions.now))) }
{
    if depth == 0 || positions.len() < FEW_POSITIONS {
        return sum_records(alloc, feed, positions, seed);
    }
    let (first, second) = positions.split_at(positions.len() / 2);
    let less = depth - 1;
    let (first, second) = join(
        rt,
        || -> Result<KeySums<M::El>, NoMemory>
            requires { IsSync R.row × IsSync F.row
                × AllByRecursion (IsRecord (meant M.valid M.add (F.monoids feed.now)))
                (F.records feed.now)
                × AllByRecursion (λ i. i < length (F.records feed.now)) first.now }
            ensures { IfOk result (AreKeySums
                (meant M.valid M.add (F.monoids feed.entry.now)) (keyed_values
                (flat_map (parts_at (F.records feed.entry.now)) first.entry.now))) }
        { sum_halves(rt, alloc, feed, first, less, seed) },
        || -> Result<KeySums<M::El>, NoMemory>
            requires { IsSync R.row × IsSync F.row
                × AllByRecursion (IsRecord (meant M.valid M.add (F.monoids feed.now)))
                (F.records feed.now)
                × AllByRecursion (λ i. i < length (F.records feed.now)) second.now }
            ensures { IfOk result (AreKeySums
                (meant M.valid M.add (F.monoids feed.entry.now)) (keyed_values
                (flat_map (parts_at (F.records feed.entry.now)) second.entry.now))) }
        { sum_halves(rt, alloc, feed, second, less, seed) },
    );
    add_behind(alloc, feed, first, second)
}

// The sums of values, and of those that come behind them.
fn add_behind<E: Drop, F: Family>(
    alloc: Global,
    family: &F,
    first: Result<KeySums<E>, NoMemory>,
    second: Result<KeySums<E>, NoMemory>,
) -> Result<KeySums<E>, NoMemory>
where
    F::M: Semigroup<El = E>,
    requires first { IfOk first (AreValid (meant F.M.valid F.M.add (F.monoids family.now))) }
    requires second { IfOk second (AreValid (meant F.M.valid F.M.add (F.monoids family.now))) }
    ensures { (values later : List (Key × E))
        → AreValid (meant F.M.valid F.M.add (F.monoids family.now)) values
        → AreValid (meant F.M.valid F.M.add (F.monoids family.now)) later
        → IfOk first (AreKeySums (meant F.M.valid F.M.add (F.monoids family.now)) values)
        → IfOk second (AreKeySums (meant F.M.valid F.M.add (F.monoids family.now)) later)
        → IfOk result (AreKeySums (meant F.M.valid F.M.add (F.monoids family.now))
        (values ++ later)) }
{
    let mut sums = first?;
    let more = second?;
    match sums.add_sums(alloc, family, more) {
        Ok(()) => Ok(sums),
        Err(error) => Err(error),
    }
}

// The sum of each key's parts in the records at these positions, one record after the other.
fn sum_records<F: Feed>(
    alloc: Global,
    feed: &F,
    positions: &[u64],
    seed: Seed,
) -> Result<KeySums<<F::M as Semigroup>::El>, NoMemory>
    requires records { AllByRecursion (IsRecord (meant F.M.valid F.M.add (F.monoids feed.now)))
        (F.records feed.now) }
    requires positions { AllByRecursion (λ i. i < length (F.records feed.now)) positions.now }
    ensures { IfOk result (AreKeySums (meant F.M.valid F.M.add (F.monoids feed.now))
        (keyed_values (flat_map (parts_at (F.records feed.now)) positions.now))) }
{
    let mut sums = KeySums::seeded(alloc, seed);
    let mut parts = Vec::new(alloc);
    for i in positions {
        feed.emit(alloc, *i, &mut parts)?;
        sums.drain_parts(alloc, feed, &mut parts)?;
    }
    Ok(sums)
}
