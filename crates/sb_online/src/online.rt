//! The online store, and what changes it.
ghost use Rattle.std.specs.Prelude.{◌≡◌, ◌<◌, ◌++◌, ◌||◌, ◌&&◌, ℕ, List, [], nat_le, length, IsTrue, OnOk, OnErr, IfOk};
ghost use Rattle.std.specs.FinMap.{is_sorted};
ghost use Rattle.std.specs.List.{list_any};
ghost use Rattle.std.specs.Ordering.{nat_cmp};
ghost use Rattle.sb_text.specs.Ranges.{union};
ghost use Rattle.sb_feed.specs.declared.key.KeyBytes.{KeyBytes as Key};
ghost use Rattle.sb_feed.specs.Keys.{same_key};
ghost use Rattle.sb_feed.specs.Jobs.{AreValid, meant};
ghost use Rattle.sb_feed.specs.Stands.{keyed_values, sum_at, HasSums};
ghost use Rattle.sb_job.specs.Sums.{HasKeySums};
ghost use Rattle.sb_online.specs.Onlines.{parts_of, online_sum, sum_from, kept_by, parts_from, without, ShareNone};

use crate::tables::{add_copies, add_tables, empty_table, gather, put_table_keys};
use sb_feed::{Family, KeyBytes, Part, PartList, Sums};
use sb_job::{KeySet, KeySums, drop_first, up_to};
use sb_laws::{NoMemory, Semigroup};
use sb_text::Ranges;
use std::alloc::Global;
use std::marker::Model;

/// The sums of what was applied: one table a batch, with the sum of each key, and the chunks that were applied.
///
/// Parts wait until memory was found to add them to their tables. Until then reads add them, so nobody sees that they
/// wait.
#[derive(Drop)]
pub struct Online<E> {
    tables: Vec<KeySums<E>>,
    waiting: Vec<Part<E>>,
    cover: Ranges,
}

impl<E> Model for Online<E> {
    ghost use Rattle.sb_online.specs.Onlines.{OnlineValue, AreApart};

    ghost Value = { OnlineValue E };

    ghost view = { λ o. record { tables = o.tables.items; waiting = o.waiting.items; cover = o.cover } };

    ghost invariant = { λ o. AreApart o.tables.items };
}

impl<E: Drop> Online<E> {
    /// No sums and no cover. Takes no memory.
    pub fn new(alloc: Global) -> Online<E>
        ensures { result ≡ record { tables = []; waiting = []; cover = [] } }
    {
        Online {
            tables: Vec::new(alloc),
            waiting: Vec::new(alloc),
            cover: Ranges::new(alloc),
        }
    }

    /// The chunks that were applied.
    pub fn cover(&self) -> &Ranges
        ensures { result.now ≡ self.now.cover }
    {
        &self.cover
    }

    /// Adds the parts of some chunks to the sums of their batches, one after the other, and puts the chunks into the
    /// cover. About one look-up a part.
    pub fn apply<F: Family>(
        &mut self,
        alloc: Global,
        family: &F,
        chunks: &Ranges,
        parts: PartList<E>,
    ) -> Result<(), NoMemory>
    where
        F::M: Semigroup<El = E>,
        requires fresh { ShareNone self.old.cover chunks.now }
        requires kept { AreValid (meant F.M.valid F.M.add (F.monoids family.now))
            (kept_by self.old) }
        requires parts { AreValid (meant F.M.valid F.M.add (F.monoids family.now))
            (keyed_values parts) }
        ensures cover { OnOk result (self.new.cover ≡ union self.old.cover chunks.now) }
        ensures sums { OnOk result ((key : Key) (j : ℕ)
            → online_sum (meant F.M.valid F.M.add (F.monoids family.now)).add self.new key j
            ≡ sum_at (meant F.M.valid F.M.add (F.monoids family.now)).add key j
            (parts_of self.old ++ parts)) }
        ensures valid { AreValid (meant F.M.valid F.M.add (F.monoids family.now))
            (kept_by self.new) }
        ensures err { OnErr result (self.new ≡ self.old) }
    {
        self.take_in(chunks, parts)?;
        self.settle(alloc, family);
        Ok(())
    }

    // The parts wait, and the chunks are covered. The room for both is all that may be refused.
    fn take_in(&mut self, chunks: &Ranges, parts: PartList<E>) -> Result<(), NoMemory>
        ensures ok { OnOk result (self.new ≡ record self.old
            { waiting = self.old.waiting ++ parts; cover = union self.old.cover chunks.now }) }
        ensures err { OnErr result (self.new ≡ self.old) }
    {
        let mut parts = parts.into_vec();
        self.waiting.reserve(parts.len())?;
        self.cover.union(chunks)?;
        self.waiting.append(&mut parts)?;
        Ok(())
    }

    // Adds what waits to the tables, as far as memory goes. What is left goes on waiting, so no refusal is lost.
    fn settle<F: Family>(&mut self, alloc: Global, family: &F)
    where
        F::M: Semigroup<El = E>,
        requires kept { AreValid (meant F.M.valid F.M.add (F.monoids family.now))
            (kept_by self.old) }
        ensures sums { (key : Key) (j : ℕ)
            → online_sum (meant F.M.valid F.M.add (F.monoids family.now)).add self.new key j
            ≡ online_sum (meant F.M.valid F.M.add (F.monoids family.now)).add self.old key j }
        ensures cover { self.new.cover ≡ self.old.cover }
        ensures valid { AreValid (meant F.M.valid F.M.add (F.monoids family.now))
            (kept_by self.new) }
    {
        let added = add_copies(alloc, family, &mut self.tables, self.waiting.as_slice());
        drop_first(&mut self.waiting, added);
    }

    /// Drops the sums of a batch. Takes no memory.
    pub fn drop_batch(&mut self, batch: u64)
        ensures parts { parts_of self.new ≡ without batch (parts_of self.old) }
        ensures cover { self.new.cover ≡ self.old.cover }
    {
        let alloc = *self.waiting.allocator();
        empty_table(alloc, &mut self.tables, batch);
        leave_out(&mut self.waiting, batch);
    }

    /// The sums of a key by batch, of the batches from one on and up to another: one look-up a batch.
    pub fn look<F: Family>(
        &self,
        alloc: Global,
        family: &F,
        key: &KeyBytes,
        from: u64,
        upto: u64,
    ) -> Result<Sums<E>, NoMemory>
    where
        F::M: Semigroup<El = E>,
        requires store { key.now.store < length (F.monoids family.now) }
        requires kept { AreValid (meant F.M.valid F.M.add (F.monoids family.now))
            (kept_by self.now) }
        ensures sums { IfOk result (HasSums
            ((meant F.M.valid F.M.add (F.monoids family.now)).valid key.now.store) upto
            (sum_from (meant F.M.valid F.M.add (F.monoids family.now)).add self.now from
            key.now)) }
        ensures rising { IfOk result (λ sums. IsTrue (is_sorted nat_cmp sums)) }
    {
        let tables = up_to(self.tables.as_slice(), upto);
        let waiting = self.waiting.as_slice();
        let m = family.monoid(key.store);
        let sums = gather(alloc, m, tables, waiting, key, from, upto)?;
        Ok(Sums::from_vec(sums))
    }

    /// Puts the keys that have a sum of a batch from one on into a set.
    pub fn put_keys(&self, alloc: Global, keys: &mut KeySet, from: u64) -> Result<(), NoMemory>
        ensures { OnOk result ((q : Key) → list_any (same_key q) keys.new
            ≡ (list_any (same_key q) keys.old || list_any
            (λ part. same_key q part.key && nat_le from part.batch) (parts_of self.now))) }
    {
        put_table_keys(alloc, keys, self.tables.as_slice(), from)?;
        keys.put_parts(alloc, self.waiting.as_slice(), from)
    }

    /// Adds the sums of the batches from one on to the sum of each key, and leaves nothing. All values are moved.
    pub fn add_to<F: Family>(
        self,
        alloc: Global,
        family: &F,
        sums: &mut KeySums<E>,
        from: u64,
    ) -> Result<(), NoMemory>
    where
        F::M: Semigroup<El = E>,
        requires kept { AreValid (meant F.M.valid F.M.add (F.monoids family.now)) (kept_by self) }
        requires sums { AreValid (meant F.M.valid F.M.add (F.monoids family.now)) sums.old }
        ensures valid { OnOk result (AreValid (meant F.M.valid F.M.add (F.monoids family.now))
            sums.new) }
        ensures sums { OnOk result ((values : List (Key × E))
            → HasKeySums (meant F.M.valid F.M.add (F.monoids family.now)) values sums.old
            → HasKeySums (meant F.M.valid F.M.add (F.monoids family.now))
            (values ++ keyed_values (parts_from from (parts_of self))) sums.new) }
    {
        let Online {
            mut tables,
            mut waiting,
            cover: _,
        } = self;
        let below = from.min(tables.len() as u64);
        drop_first(&mut tables, below as usize);
        keep_from(&mut waiting, from);
        add_tables(alloc, family, sums, tables)?;
        sums.add_parts(alloc, family, waiting)
    }
}

fn leave_out<E: Drop>(parts: &mut Vec<Part<E>>, batch: u64)
    ensures { parts.new.items ≡ without batch parts.old.items }
{
    parts.retain(|part: &Part<E>| part.batch != batch);
}

fn keep_from<E: Drop>(parts: &mut Vec<Part<E>>, from: u64)
    ensures { parts.new.items ≡ parts_from from parts.old.items }
{
    parts.retain(|part: &Part<E>| from <= part.batch);
}
