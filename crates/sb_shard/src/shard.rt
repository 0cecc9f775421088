//! A shard's sums by key and batch, and the events that change them.
ghost use Rattle.std.specs.Prelude.{◌≡◌, ◌⊎◌, ◌↔◌, ◌<◌, ◌+◌, ℕ, [], max, length, IsTrue, Err, OnOk, OnErr, IfOk, IfErr};
ghost use Rattle.std.specs.FinMap.{is_sorted};
ghost use Rattle.std.specs.Ordering.{nat_cmp};
ghost use Rattle.sb_text.specs.Ranges.{union};
ghost use Rattle.sb_feed.specs.Jobs.{CutLog, AreValid, meant};
ghost use Rattle.sb_feed.specs.Stands.{keyed_values, AreFoldsOf};
ghost use Rattle.sb_online.specs.Onlines.{ShareNone, parts_from};
ghost use Rattle.sb_shard.specs.Shards.{cover_of, published_to, floor_of, kept_by, shard_sums};
ghost use Rattle.sb_shard.specs.Asks.{Answers, values_of, MakesNamed, Drains, HasKeys};
ghost use Rattle.sb_shard.specs.Events.{FlushKeeps, InstallKeeps, KeepsOnly, ExpireKeeps, IsFlushed, IsInstalled};

use crate::answer::{Answer, AskError};
use sb_feed::{Family, KeyBytes, Parcel, Part, PartList, RowList, Rows};
use sb_job::{KeySet, KeySums};
use sb_laws::{NoMemory, Semigroup};
use sb_offline::{ExpireError, Offered, Offline};
use sb_online::Online;
use sb_text::Ranges;
use std::alloc::Global;
use std::marker::Model;

/// The sums of a shard's keys, in two stores. A batch is published (its sums are the installed rows, or a part of the
/// base once they are expired) or online (its sums are what was flushed).
#[derive(Drop)]
pub struct Shard<E> {
    offline: Offline<E>,
    online: Online<E>,
}

impl<E> Model for Shard<E> {
    ghost use Rattle.sb_shard.specs.Shards.{ShardValue};

    ghost Value = { ShardValue E };

    ghost view = { λ s. record { offline = s.offline; online = s.online } };
}

impl<E: Drop> Shard<E> {
    /// No sums, no cover, and no published batch. Takes no memory.
    pub fn new(alloc: Global) -> Shard<E>
        ensures folds { (stores : ℕ) (add : ℕ → E → E → E) (log : CutLog E) (shard : ℕ)
            → AreFoldsOf stores add log shard (shard_sums add result) }
        ensures kept { kept_by result ≡ [] }
        ensures cover { cover_of result ≡ [] }
        ensures numbers { (published_to result ≡ 0) × (floor_of result ≡ 0) }
    {
        Shard {
            offline: Offline::new(alloc),
            online: Online::new(alloc),
        }
    }

    /// The chunks that were flushed.
    pub fn cover(&self) -> &Ranges
        ensures { result.now ≡ cover_of self.now }
    {
        self.online.cover()
    }

    /// The number of published batches.
    pub fn published(&self) -> u64
        ensures { result ≡ published_to self.now }
    {
        self.offline.published()
    }

    /// The floor: the sums of the batches below it are in the base.
    pub fn floor(&self) -> u64
        ensures { result ≡ floor_of self.now }
    {
        self.offline.floor()
    }

    /// Adds the parcel's parts of batches that aren't published, and puts its chunks into the cover.
    pub fn flush<F: Family>(
        &mut self,
        alloc: Global,
        family: &F,
        parcel: Parcel<E>,
    ) -> Result<(), NoMemory>
    where
        F::M: Semigroup<El = E>,
        requires fresh { ShareNone (cover_of self.old) parcel.chunks }
        requires kept { AreValid (meant F.M.valid F.M.add (F.monoids family.now))
            (kept_by self.old) }
        requires parts { AreValid (meant F.M.valid F.M.add (F.monoids family.now))
            (keyed_values parcel.parts) }
        ensures cover { OnOk result (cover_of self.new ≡ union (cover_of self.old) parcel.chunks) }
        ensures numbers { OnOk result ((published_to self.new ≡ published_to self.old)
            × (floor_of self.new ≡ floor_of self.old)) }
        ensures valid { OnOk result (AreValid (meant F.M.valid F.M.add (F.monoids family.now))
            (kept_by self.new)) }
        ensures stands { OnOk result (FlushKeeps F.M.valid F.M.add (F.monoids family.now) parcel
            self.old self.new) }
        ensures err { OnErr result (self.new ≡ self.old) }
    {
        self.put(alloc, family, parcel)
    }

    // What a flush does.
    fn put<F: Family>(
        &mut self,
        alloc: Global,
        family: &F,
        parcel: Parcel<E>,
    ) -> Result<(), NoMemory>
    where
        F::M: Semigroup<El = E>,
        requires fresh { ShareNone (cover_of self.old) parcel.chunks }
        requires kept { AreValid (meant F.M.valid F.M.add (F.monoids family.now))
            (kept_by self.old) }
        requires parts { AreValid (meant F.M.valid F.M.add (F.monoids family.now))
            (keyed_values parcel.parts) }
        ensures ok { OnOk result (IsFlushed (meant F.M.valid F.M.add (F.monoids family.now)).add
            parcel self.old self.new) }
        ensures valid { OnOk result (AreValid (meant F.M.valid F.M.add (F.monoids family.now))
            (kept_by self.new)) }
        ensures err { OnErr result (self.new ≡ self.old) }
    {
        let Parcel { chunks, parts } = parcel;
        let mut parts = parts.into_vec();
        keep_from(&mut parts, self.published());
        let parts = PartList::from_vec(parts);
        self.online.apply(alloc, family, &chunks, parts)
    }

    /// Installs the rows of the next batch, whose online sums are dropped.
    pub fn install(&mut self, rows: Rows<E>) -> Result<(), NoMemory>
        requires from { rows.from ≡ published_to self.old }
        requires to { rows.to ≡ published_to self.old + 1 }
        ensures published { OnOk result (published_to self.new ≡ published_to self.old + 1) }
        ensures others { OnOk result ((cover_of self.new ≡ cover_of self.old)
            × (floor_of self.new ≡ floor_of self.old)) }
        ensures folds { OnOk result (InstallKeeps rows self.old self.new) }
        ensures kept { OnOk result (KeepsOnly rows self.old self.new) }
        ensures err { OnErr result (self.new ≡ self.old) }
    {
        self.advance(rows)
    }

    // What an installation does.
    fn advance(&mut self, rows: Rows<E>) -> Result<(), NoMemory>
        requires from { rows.from ≡ published_to self.old }
        requires to { rows.to ≡ published_to self.old + 1 }
        ensures ok { OnOk result (IsInstalled rows self.old self.new) }
        ensures err { OnErr result (self.new ≡ self.old) }
    {
        let batch = self.published();
        self.offline.install(rows)?;
        self.online.drop_batch(batch);
        Ok(())
    }

    /// Raises the floor: the published sums below it go to the base. A floor that isn't higher changes nothing. Costs
    /// the sums that go to the base.
    pub fn expire<F: Family>(
        &mut self,
        alloc: Global,
        family: &F,
        floor: u64,
    ) -> Result<(), ExpireError>
    where
        F::M: Semigroup<El = E>,
        requires kept { AreValid (meant F.M.valid F.M.add (F.monoids family.now))
            (kept_by self.old) }
        ensures numbers { OnOk result ((floor_of self.new ≡ max (floor_of self.old) floor)
            × (published_to self.new ≡ published_to self.old)) }
        ensures cover { cover_of self.new ≡ cover_of self.old }
        ensures valid { AreValid (meant F.M.valid F.M.add (F.monoids family.now))
            (kept_by self.new) }
        ensures stands { OnOk result (ExpireKeeps F.M.valid F.M.add (F.monoids family.now) floor
            self.old self.new) }

        // Exactly where a batch below the floor isn't published.
        ensures not_published { (result
            ≡ Err (ExpireError.NotPublished floor (published_to self.old)))
            ↔ published_to self.old < floor }
        ensures refused { IfErr result (λ e. (e ≡ ExpireError.NoMemory)
            ⊎ (e ≡ ExpireError.NotPublished floor (published_to self.old))) }
        ensures err { OnErr result (self.new ≡ self.old) }
    {
        self.offline.expire(alloc, family, floor)
    }

    /// What the shard holds of a key up to a batch, at most one sum a batch.
    pub fn ask<F: Family>(
        &self,
        alloc: Global,
        family: &F,
        key: &KeyBytes,
        upto: u64,
    ) -> Result<Answer<E>, AskError>
    where
        F::M: Semigroup<El = E>,
        requires store { key.now.store < length (F.monoids family.now) }
        requires kept { AreValid (meant F.M.valid F.M.add (F.monoids family.now))
            (kept_by self.now) }
        ensures sums { IfOk result (Answers (meant F.M.valid F.M.add (F.monoids family.now))
            self.now key.now upto) }
        ensures named { IfOk result (λ answer.
            MakesNamed F.M.valid F.M.add (F.monoids family.now) self.now key.now upto
            (values_of answer)) }

        // Exactly where the base has the sums of later batches than the asked one.
        ensures expired { (result ≡ Err (AskError.Expired upto (floor_of self.now)))
            ↔ upto + 1 < floor_of self.now }
        ensures refused { IfErr result (λ e. (e ≡ AskError.NoMemory)
            ⊎ (e ≡ AskError.Expired upto (floor_of self.now))) }
    {
        let floor = self.floor();
        if upto < floor.saturating_sub(1) {
            return Err(AskError::Expired { asked: upto, floor });
        }
        let answer = self.answer(alloc, family, key, upto)?;
        Ok(answer)
    }

    /// The keys with a sum, each once and in rising order.
    pub fn keys(&self, alloc: Global) -> Result<Vec<KeyBytes>, NoMemory>
        ensures { IfOk result (λ keys. (add : ℕ → E → E → E)
            → HasKeys (shard_sums add self.now) keys.items) }
    {
        let mut keys = KeySet::new(alloc);
        self.offline.put_keys(alloc, &mut keys)?;
        self.online.put_keys(alloc, &mut keys, self.published())?;
        keys.into_keys(alloc)
    }

    /// The sum of each key that has one, over all batches, in rising order of the keys. Takes n log n steps for n kept
    /// values, which are moved.
    pub fn into_rows<F: Family>(self, alloc: Global, family: &F) -> Result<RowList<E>, NoMemory>
    where
        F::M: Semigroup<El = E>,
        requires kept { AreValid (meant F.M.valid F.M.add (F.monoids family.now)) (kept_by self) }
        ensures { IfOk result (Drains F.M.valid F.M.add (F.monoids family.now) self) }
    {
        let sums = self.into_sums(alloc, family)?;
        sums.into_rows(alloc)
    }

    /// The same sums in no order, in as many steps as there are kept values.
    pub fn into_sums<F: Family>(self, alloc: Global, family: &F) -> Result<KeySums<E>, NoMemory>
    where
        F::M: Semigroup<El = E>,
        requires kept { AreValid (meant F.M.valid F.M.add (F.monoids family.now)) (kept_by self) }
        ensures { IfOk result (Drains F.M.valid F.M.add (F.monoids family.now) self) }
    {
        let from = self.published();
        let Shard { offline, online } = self;
        let mut sums = offline.into_sums(alloc, family)?;
        online.add_to(alloc, family, &mut sums, from)?;
        Ok(sums)
    }

    // What is held of a key.
    fn answer<F: Family>(
        &self,
        alloc: Global,
        family: &F,
        key: &KeyBytes,
        upto: u64,
    ) -> Result<Answer<E>, NoMemory>
    where
        F::M: Semigroup<El = E>,
        requires store { key.now.store < length (F.monoids family.now) }
        requires kept { AreValid (meant F.M.valid F.M.add (F.monoids family.now))
            (kept_by self.now) }
        ensures sums { IfOk result (Answers (meant F.M.valid F.M.add (F.monoids family.now))
            self.now key.now upto) }
        ensures rising { IfOk result (λ answer. IsTrue (is_sorted nat_cmp answer.published)
            × IsTrue (is_sorted nat_cmp answer.online)) }
    {
        let Offered { base, published } = self.offline.look(alloc, family, key, upto)?;
        let online = self
            .online
            .look(alloc, family, key, self.published(), upto)?;
        let cover = self.cover().copy()?;
        Ok(Answer {
            base,
            published,
            online,
            cover,
            published_to: self.published(),
            floor: self.floor(),
        })
    }
}

fn keep_from<E: Drop>(parts: &mut Vec<Part<E>>, published: u64)
    ensures { parts.new.items ≡ parts_from published parts.old.items }
{
    parts.retain(|part: &Part<E>| published <= part.batch);
}
