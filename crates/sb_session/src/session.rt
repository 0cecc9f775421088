//! The session: its events, and what it reads.
ghost use Rattle.std.specs.Prelude.{◌≡◌, ◌≤◌, ◌<◌, ◌+◌, ◌-◌, nat_le, min, max, length, Some, slice_get, IfOk, OnOk, OnErr};
ghost use Rattle.std.specs.List.{AllByRecursion, range_with_len};
ghost use Rattle.sb_feed.specs.Cuts.{chunk_count};
ghost use Rattle.sb_feed.specs.Jobs.{IsLogOf, meant};
ghost use Rattle.sb_feed.specs.Limits.{most_chunks};
ghost use Rattle.sb_feed.specs.Stands.{keyed_values};
ghost use Rattle.sb_shard.specs.Shards.{ShardValue, published_to};
ghost use Rattle.sb_session.specs.Sessions.{job_by, raised_floor, read_fold, AreAllRows, IsEach, IsOver, StandEach};
ghost use Rattle.sb_session.specs.Steps.{Installs, IsNew, IsNextParcel, IsShardOver, Moves};

use crate::draining::drain_shards;
use crate::emitting::{batch_count, parts_between};
use crate::reading::{Reading, merge};
use sb_feed::{Cut, Feed, KeyBytes, Parcel, PartList, RowList, Rows};
use sb_job::{job, split_parcel, split_rows};
use sb_laws::{Commuting, NoMemory, Semigroup};
use sb_shard::{AskError, Shard};
use sb_text::Ranges;
use std::alloc::{AllocError, Global};
use std::marker::Model;
use std::random::RandomSource;
use std::thread::Threads;

/// The shards of a cut, into which the chunks of a feed are worked from the first on, and in which its batches are
/// published. Each key is in the shard that the cut gives it. All shards are at the same chunks, batches and floor.
///
/// After a refused event some shards are further than others: such a session may only be dropped.
#[derive(Drop)]
pub struct Session<E> {
    shards: Vec<Shard<E>>,
    cut: Cut,
    batches: u64,
    worked: u64,
    published: u64,
    floor: u64,
}

impl<E> Model for Session<E> {
    ghost use Rattle.std.specs.Prelude.{◌≤◌};
    ghost use Rattle.sb_feed.specs.Cuts.{IsCut, chunk_count};
    ghost use Rattle.sb_session.specs.Sessions.{SessionValue};

    ghost Value = { SessionValue E };

    ghost view = { λ s. record { shards = s.shards.items; cut = s.cut; batches = s.batches; worked = s.worked; published = s.published; floor = s.floor } };

    ghost invariant = { λ s. IsCut s.cut × (s.worked ≤ chunk_count s.cut) };
}

impl<E: Drop> Session<E> {
    /// A session over a feed, in the chunks and shards of a cut made for its records. Nothing is worked, and nothing is
    /// published.
    pub fn new<F: Feed>(alloc: Global, feed: &F, cut: Cut) -> Result<Session<E>, NoMemory>
    where
        F::M: Semigroup<El = E>,
        requires records { cut.records ≡ length (F.records feed.now) }
        ensures over { IfOk result (IsOver F.M.valid F.M.add (F.monoids feed.now) (F.records feed.now)) }
        ensures cut { IfOk result (λ session. session.cut ≡ cut) }
        ensures numbers { IfOk result (λ session. (session.worked ≡ 0) × (session.published ≡ 0)
            × (session.floor ≡ 0)) }
    {
        let shards = new_shards(alloc, cut.shards())?;
        Ok(Session {
            shards,
            batches: batch_count(feed),
            cut,
            worked: 0,
            published: 0,
            floor: 0,
        })
    }

    /// The number of published batches.
    pub fn published(&self) -> u64
        ensures { result ≡ self.now.published }
    {
        self.published
    }

    /// The floor: the sums of the batches below it are added up.
    pub fn floor(&self) -> u64
        ensures { result ≡ self.now.floor }
    {
        self.floor
    }

    /// The chunks that were worked.
    pub fn cover(&self, alloc: Global) -> Result<Ranges, NoMemory>
        ensures { IfOk result (λ chunks. chunks ≡ range_with_len 0 self.now.worked) }
    {
        chunks_between(alloc, 0, self.worked)
    }

    /// Raises the floor to this one, unless it is there already. False, and nothing changed, exactly where the floor would
    /// pass the published batches. Costs the sums below the floor.
    pub fn expire<F: Feed>(&mut self, alloc: Global, feed: &F, floor: u64) -> Result<bool, NoMemory>
    where
        F::M: Commuting<El = E>,
        requires over { IsOver F.M.valid F.M.add (F.monoids feed.now) (F.records feed.now)
            self.old }
        ensures over { OnOk result (IsOver F.M.valid F.M.add (F.monoids feed.now)
            (F.records feed.now) self.new) }
        ensures raised { IfOk result (λ raised. raised ≡ nat_le floor self.old.published) }
        ensures floor { OnOk result (self.new.floor ≡ raised_floor self.old.published
            self.old.floor floor) }
        ensures others { OnOk result ((self.new.cut ≡ self.old.cut)
            × (self.new.published ≡ self.old.published) × (self.new.worked ≡ self.old.worked)) }
        ensures err { OnErr result (StandEach F.M.valid F.M.add (F.monoids feed.now)
            (F.records feed.now) self.new) }
    {
        if self.published < floor {
            return Ok(false);
        }
        self.raise(alloc, feed, floor)?;
        Ok(true)
    }

    // Raises the floor in each shard.
    fn raise<F: Feed>(&mut self, alloc: Global, feed: &F, floor: u64) -> Result<(), NoMemory>
    where
        F::M: Commuting<El = E>,
        requires over { IsOver F.M.valid F.M.add (F.monoids feed.now) (F.records feed.now)
            self.old }
        requires within { floor ≤ self.old.published }
        ensures over { OnOk result (IsOver F.M.valid F.M.add (F.monoids feed.now)
            (F.records feed.now) self.new) }
        ensures floor { OnOk result (self.new.floor ≡ max self.old.floor floor) }
        ensures others { OnOk result ((self.new.cut ≡ self.old.cut)
            × (self.new.published ≡ self.old.published) × (self.new.worked ≡ self.old.worked)) }
        ensures err { OnErr result (StandEach F.M.valid F.M.add (F.monoids feed.now)
            (F.records feed.now) self.new) }
    {
        for number in 0..self.shards.len() {
            self.raise_shard(alloc, feed, number, floor)?;
        }
        self.floor = self.floor.max(floor);
        Ok(())
    }

    // Raises the floor in the shard with this number.
    fn raise_shard<F: Feed>(
        &mut self,
        alloc: Global,
        feed: &F,
        number: usize,
        floor: u64,
    ) -> Result<(), NoMemory>
    where
        F::M: Commuting<El = E>,
        requires log { IsLogOf (meant F.M.valid F.M.add (F.monoids feed.now))
            (job_by (F.monoids feed.now) (F.records feed.now) self.old.cut).log }
        requires there { number < length self.old.shards }
        requires over { IsShardOver F.M.valid F.M.add (F.monoids feed.now) (F.records feed.now)
            self.old number }
        requires within { floor ≤ self.old.published }
        ensures ok { OnOk result (Moves F.M.valid F.M.add (job_by (F.monoids feed.now)
            (F.records feed.now) self.old.cut)
            self.old.worked self.old.published (max self.old.floor floor) number self.old
            self.new) }
        ensures err { OnErr result (self.new ≡ self.old) }
    {
        let shard = &mut self.shards[number];
        let Ok(()) = shard.expire(alloc, feed, floor) else {
            return Err(AllocError);
        };
        Ok(())
    }

    /// Works the next chunks, at most so many, and gives their numbers.
    pub fn work<F: Feed>(&mut self, alloc: Global, feed: &F, most: u64) -> Result<Ranges, NoMemory>
    where
        F::M: Commuting<El = E>,
        requires over { IsOver F.M.valid F.M.add (F.monoids feed.now) (F.records feed.now)
            self.old }
        ensures over { OnOk result (IsOver F.M.valid F.M.add (F.monoids feed.now)
            (F.records feed.now) self.new) }
        ensures worked { OnOk result (self.new.worked
            ≡ min (self.old.worked + most) (chunk_count self.old.cut)) }
        ensures chunks { IfOk result (λ chunks. chunks
            ≡ range_with_len self.old.worked (self.new.worked - self.old.worked)) }
        ensures others { OnOk result ((self.new.cut ≡ self.old.cut)
            × (self.new.published ≡ self.old.published) × (self.new.floor ≡ self.old.floor)) }
        ensures err { OnErr result (StandEach F.M.valid F.M.add (F.monoids feed.now)
            (F.records feed.now) self.new) }
    {
        let upto = self.cut.chunks().min(self.worked.saturating_add(most));
        let chunks = chunks_between(alloc, self.worked, upto)?;
        if self.worked < upto {
            self.flush(alloc, feed, upto)?;
        }
        Ok(chunks)
    }

    // Flushes the next chunks, up to one, into each shard.
    fn flush<F: Feed>(&mut self, alloc: Global, feed: &F, upto: u64) -> Result<(), NoMemory>
    where
        F::M: Commuting<El = E>,
        requires over { IsOver F.M.valid F.M.add (F.monoids feed.now) (F.records feed.now)
            self.old }
        requires some { self.old.worked < upto }
        requires chunks { upto ≤ chunk_count self.old.cut }
        ensures over { OnOk result (IsOver F.M.valid F.M.add (F.monoids feed.now)
            (F.records feed.now) self.new) }
        ensures worked { OnOk result (self.new.worked ≡ upto) }
        ensures others { OnOk result ((self.new.cut ≡ self.old.cut)
            × (self.new.published ≡ self.old.published) × (self.new.floor ≡ self.old.floor)) }
        ensures err { OnErr result (StandEach F.M.valid F.M.add (F.monoids feed.now)
            (F.records feed.now) self.new) }
    {
        let mut number = 0;
        for parcel in self.parcels(alloc, feed, upto)? {
            self.flush_shard(alloc, feed, number, parcel)?;
            number += 1;
        }
        self.worked = upto;
        Ok(())
    }

    // The parcels of the next chunks, up to one, by the shards' numbers.
    fn parcels<F: Feed>(
        &self,
        alloc: Global,
        feed: &F,
        upto: u64,
    ) -> Result<Vec<Parcel<E>>, NoMemory>
    where
        F::M: Semigroup<El = E>,
        requires over { IsOver F.M.valid F.M.add (F.monoids feed.now) (F.records feed.now)
            self.now }
        requires some { self.now.worked < upto }
        requires chunks { upto ≤ chunk_count self.now.cut }
        ensures number { IfOk result (λ parcels. length parcels.items ≡ self.now.cut.shards) }
        ensures each { IfOk result (λ parcels. IsEach (IsNextParcel F.M.valid F.M.add
            (job_by (F.monoids feed.now) (F.records feed.now) self.now.cut) self.now.worked
            upto) parcels.items) }
    {
        let chunks = chunks_between(alloc, self.worked, upto)?;
        let from = self.cut.bounds(self.worked).0;
        let to = self.cut.bounds(upto - 1).1;
        let parts = parts_between(alloc, feed, from, to)?;
        let parcel = Parcel {
            chunks,
            parts: PartList::from_vec(parts),
        };
        split_parcel(alloc, parcel, &self.cut)
    }

    // Flushes its parcel into the shard with this number.
    fn flush_shard<F: Feed>(
        &mut self,
        alloc: Global,
        feed: &F,
        number: usize,
        parcel: Parcel<E>,
    ) -> Result<(), NoMemory>
    where
        F::M: Commuting<El = E>,
        requires log { IsLogOf (meant F.M.valid F.M.add (F.monoids feed.now))
            (job_by (F.monoids feed.now) (F.records feed.now) self.old.cut).log }
        requires there { number < length self.old.shards }
        requires over { IsShardOver F.M.valid F.M.add (F.monoids feed.now) (F.records feed.now)
            self.old number }
        requires parcel { IsNextParcel F.M.valid F.M.add (job_by (F.monoids feed.now)
            (F.records feed.now) self.old.cut)
            self.old.worked (self.old.worked + length parcel.chunks) number parcel }
        ensures ok { OnOk result (Moves F.M.valid F.M.add (job_by (F.monoids feed.now)
            (F.records feed.now) self.old.cut)
            (self.old.worked + length parcel.chunks) self.old.published self.old.floor number
            self.old self.new) }
        ensures err { OnErr result (self.new ≡ self.old) }
    {
        let shard = &mut self.shards[number];
        shard.flush(alloc, feed, parcel)
    }

    /// Publishes the batches of the log below this one that aren't published yet. The records of a large batch are added on
    /// all processors.
    pub fn publish<
        R: Threads + RandomSource + Sync,
        M: Commuting<El = E> + Sync,
        F: Feed<M = M> + Sync,
    >(&mut self, rt: &R, alloc: Global, feed: &F, upto: u64) -> Result<(), NoMemory>
    where
        E: Send + Sync,
        requires over { IsOver M.valid M.add (F.monoids feed.now) (F.records feed.now)
            self.old }
        ensures over { OnOk result (IsOver M.valid M.add (F.monoids feed.now)
            (F.records feed.now) self.new) }
        ensures published { OnOk result (self.new.published
            ≡ max self.old.published (min upto self.old.batches)) }
        ensures others { OnOk result ((self.new.cut ≡ self.old.cut)
            × (self.new.worked ≡ self.old.worked) × (self.new.floor ≡ self.old.floor)) }
        ensures err { OnErr result (StandEach M.valid M.add (F.monoids feed.now)
            (F.records feed.now) self.new) }
    {
        let end = upto.min(self.batches);
        for batch in self.published..end {
            self.publish_next(rt, alloc, feed, batch)?;
        }
        Ok(())
    }

    // Publishes the next batch, which has this number, in each shard.
    fn publish_next<
        R: Threads + RandomSource + Sync,
        M: Commuting<El = E> + Sync,
        F: Feed<M = M> + Sync,
    >(&mut self, rt: &R, alloc: Global, feed: &F, batch: u64) -> Result<(), NoMemory>
    where
        E: Send + Sync,
        requires over { IsOver M.valid M.add (F.monoids feed.now) (F.records feed.now)
            self.old }
        requires next { batch ≡ self.old.published }
        requires some { batch < self.old.batches }
        ensures over { OnOk result (IsOver M.valid M.add (F.monoids feed.now)
            (F.records feed.now) self.new) }
        ensures published { OnOk result (self.new.published ≡ self.old.published + 1) }
        ensures others { OnOk result ((self.new.cut ≡ self.old.cut)
            × (self.new.worked ≡ self.old.worked) × (self.new.batches ≡ self.old.batches)
            × (self.new.floor ≡ self.old.floor)) }
        ensures err { OnErr result (StandEach M.valid M.add (F.monoids feed.now)
            (F.records feed.now) self.new) }
    {
        let rows = job(rt, alloc, feed, batch, batch + 1)?;
        let mut number = 0;
        for rows in split_rows(alloc, rows, &self.cut)? {
            self.install_in(number, rows)?;
            number += 1;
        }
        self.published = batch + 1;
        Ok(())
    }

    // Installs its rows of the next batch in the shard with this number.
    fn install_in(&mut self, number: usize, rows: Rows<E>) -> Result<(), NoMemory>
        requires there { number < length self.old.shards }
        requires published { (shard : ShardValue E) → slice_get self.old.shards number ≡ Some shard
            → published_to shard ≡ rows.from }
        requires to { rows.to ≡ rows.from + 1 }
        ensures ok { OnOk result (Installs rows number self.old self.new) }
        ensures err { OnErr result (self.new ≡ self.old) }
    {
        let shard = &mut self.shards[number];
        shard.install(rows)
    }

    /// The fold of a key over the published batches and the chunks that were worked, up to a batch, which the floor doesn't
    /// pass by more than one.
    pub fn read<F: Feed>(
        &self,
        alloc: Global,
        feed: &F,
        key: &KeyBytes,
        upto: u64,
    ) -> Result<Reading<E>, NoMemory>
    where
        F::M: Commuting<El = E>,
        requires over { IsOver F.M.valid F.M.add (F.monoids feed.now) (F.records feed.now)
            self.now }
        requires store { key.now.store < length (F.monoids feed.now) }
        requires open { self.now.floor ≤ upto + 1 }
        ensures value { IfOk result (λ reading. reading.value
            ≡ read_fold F.M.add (job_by (F.monoids feed.now) (F.records feed.now) self.now.cut)
            key.now upto self.now.published self.now.worked) }
        ensures numbers { IfOk result (λ reading. (reading.published ≡ self.now.published)
            × (reading.cover ≡ range_with_len 0 self.now.worked)) }
    {
        let shard = &self.shards[self.cut.shard_of(key) as usize];
        match shard.ask(alloc, feed, key, upto) {
            Ok(answer) => merge(alloc, feed.monoid(key.store), answer),
            Err(AskError::NoMemory) => Err(AllocError),

            // The batch isn't expired.
            Err(AskError::Expired { .. }) => unreachable!(),
        }
    }

    /// Works the chunks that are left, and gives the fold of each key over the whole log.
    pub fn drain<F: Feed>(mut self, alloc: Global, feed: &F) -> Result<RowList<E>, NoMemory>
    where
        F::M: Commuting<El = E>,
        requires over { IsOver F.M.valid F.M.add (F.monoids feed.now) (F.records feed.now) self }
        ensures { IfOk result (AreAllRows F.M.valid F.M.add
            (job_by (F.monoids feed.now) (F.records feed.now) self.cut)) }
    {
        self.work(alloc, feed, u64::MAX)?;
        let Session { shards, cut, .. } = self;
        drain_shards(alloc, feed, &cut, shards)
    }
}

// So many shards with nothing in them.
fn new_shards<E: Drop>(alloc: Global, count: u32) -> Result<Vec<Shard<E>>, NoMemory>
    ensures number { IfOk result (λ shards. length shards.items ≡ count) }
    ensures each { IfOk result (λ shards. AllByRecursion IsNew shards.items) }
{
    let mut shards = Vec::with_capacity(alloc, count as usize)?;
    for _ in 0..count {
        shards.push(Shard::new(alloc))?;
    }
    Ok(shards)
}

// The numbers of the chunks from one on and below another.
fn chunks_between(alloc: Global, from: u64, to: u64) -> Result<Ranges, NoMemory>
    requires order { from ≤ to }
    requires limit { to ≤ most_chunks }
    ensures { IfOk result (λ chunks. chunks ≡ range_with_len from (to - from)) }
{
    Ranges::span(alloc, from, to)
}
