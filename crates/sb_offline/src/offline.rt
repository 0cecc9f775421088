//! The offline store, and what changes it.
ghost use Rattle.std.specs.Prelude.{◌≡◌, ◌⊎◌, ◌↔◌, ◌<◌, ◌≤◌, ◌+◌, ◌++◌, ◌∷◌, ◌||◌, ℕ, [], length, IsTrue, Err, OnOk, OnErr, IfOk, IfErr};
ghost use Rattle.std.specs.FinMap.{is_sorted};
ghost use Rattle.std.specs.List.{AllByRecursion, list_any};
ghost use Rattle.std.specs.Ordering.{nat_cmp};
ghost use Rattle.sb_feed.specs.declared.key.KeyBytes.{KeyBytes as Key};
ghost use Rattle.sb_feed.specs.Keys.{key_order, same_key};
ghost use Rattle.sb_feed.specs.Jobs.{AreValid, meant};
ghost use Rattle.sb_feed.specs.Stands.{HasSums};
ghost use Rattle.sb_job.specs.Sums.{HasKeySums};
ghost use Rattle.sb_offline.specs.Offlines.{published_to, base_values, base_sum, published_sum, kept_by, HasKeys};
ghost use Rattle.sb_offline.specs.Expiries.{IsExpired, IsRaised, IsSettled};

use crate::draining::add_lists;
use crate::expiry::{ExpireError, add_copies, count_rows, move_rows};
use crate::listed::{copy_found, gather_rows, put_list_keys, with_values};
use sb_feed::{Family, KeyBytes, RowList, Rows, Sums};
use sb_job::{KeySet, KeySums, drop_first, up_to};
use sb_laws::{NoMemory, Semigroup};
use std::alloc::Global;
use std::marker::Model;

/// The sums of published batches: one list of rows a batch from the floor on, and one sum a key of all batches below it,
/// the base.
///
/// Rows that leave their list for the base wait until memory was found to add them. Until then reads add them, so
/// nobody sees that they wait.
#[derive(Drop)]
pub struct Offline<E> {
    base: KeySums<E>,
    waiting: Vec<(KeyBytes, E)>,
    rows: Vec<RowList<E>>,
    floor: u64,
}

impl<E> Model for Offline<E> {
    ghost use Rattle.sb_offline.specs.Offlines.{OfflineValue, IsOffline};

    ghost Value = { OfflineValue E };

    ghost view = { λ o. record { base = o.base; waiting = o.waiting.items; rows = o.rows.items; floor = o.floor } };

    ghost invariant = { λ o. IsOffline (record { base = o.base; waiting = o.waiting.items; rows = o.rows.items; floor = o.floor }) };
}

/// What the store holds of a key: its base, and a sum of each published batch from the floor on that has one.
#[derive(Drop)]
pub struct Offered<E> {
    pub base: Option<E>,
    pub published: Sums<E>,
}

impl<E: Drop> Offline<E> {
    /// No sums, no published batch, and the floor 0. Takes no memory.
    pub fn new(alloc: Global) -> Offline<E>
        ensures { result ≡ record { base = []; waiting = []; rows = []; floor = 0 } }
    {
        Offline {
            base: KeySums::new(alloc),
            waiting: Vec::new(alloc),
            rows: Vec::new(alloc),
            floor: 0,
        }
    }

    /// The number of published batches.
    pub fn published(&self) -> u64
        ensures { result ≡ published_to self.now }
    {
        self.rows.len() as u64
    }

    /// The floor: the batches below it are summed up in the base.
    pub fn floor(&self) -> u64
        ensures floor { result ≡ self.now.floor }
        ensures within { result ≤ published_to self.now }
    {
        self.floor
    }

    /// Installs the rows of the next batch.
    pub fn install(&mut self, rows: Rows<E>) -> Result<(), NoMemory>
        requires from { rows.from ≡ published_to self.old }
        requires to { rows.to ≡ published_to self.old + 1 }
        ensures ok { OnOk result (self.new ≡ record self.old
            { rows = self.old.rows ++ rows.rows ∷ [] }) }
        ensures err { OnErr result (self.new ≡ self.old) }
    {
        let Rows {
            from: _,
            to: _,
            rows,
        } = rows;
        self.rows.push(rows)?;
        Ok(())
    }

    /// Raises the floor: the published sums below it go to the base, in rising order of the batches. A floor that isn't
    /// higher changes nothing. Costs the sums that go to the base; a sum of the base is never copied.
    pub fn expire<F: Family>(
        &mut self,
        alloc: Global,
        family: &F,
        floor: u64,
    ) -> Result<(), ExpireError>
    where
        F::M: Semigroup<El = E>,
        requires kept { AreValid (meant F.M.valid F.M.add (F.monoids family.now))
            (kept_by self.old) }
        ensures ok { OnOk result (IsExpired (meant F.M.valid F.M.add (F.monoids family.now)).add
            floor self.old self.new) }
        ensures valid { AreValid (meant F.M.valid F.M.add (F.monoids family.now))
            (kept_by self.new) }

        // Exactly where a batch below the floor isn't published.
        ensures not_published { (result
            ≡ Err (ExpireError.NotPublished floor (published_to self.old)))
            ↔ published_to self.old < floor }
        ensures refused { IfErr result (λ e. (e ≡ ExpireError.NoMemory)
            ⊎ (e ≡ ExpireError.NotPublished floor (published_to self.old))) }
        ensures err { OnErr result (self.new ≡ self.old) }
    {
        let published = self.published();
        if floor > published {
            return Err(ExpireError::NotPublished {
                asked: floor,
                published,
            });
        }
        self.raise(alloc, floor)?;
        self.settle(alloc, family);
        Ok(())
    }

    // Raises the floor. The rows below it wait; the room for them is all that may be refused.
    fn raise(&mut self, alloc: Global, floor: u64) -> Result<(), NoMemory>
        requires { floor ≤ published_to self.old }
        ensures ok { OnOk result (IsRaised floor self.old self.new) }
        ensures err { OnErr result (self.new ≡ self.old) }
    {
        let from = self.floor;
        if floor <= from {
            return Ok(());
        }
        let count = count_rows(self.rows.as_slice(), from, floor)?;
        self.waiting.reserve(count)?;
        move_rows(alloc, &mut self.rows, from, floor, &mut self.waiting)?;
        self.floor = floor;
        Ok(())
    }

    // Adds what waits to the base, as far as memory goes. What is left goes on waiting, so no refusal is lost.
    fn settle<F: Family>(&mut self, alloc: Global, family: &F)
    where
        F::M: Semigroup<El = E>,
        requires kept { AreValid (meant F.M.valid F.M.add (F.monoids family.now))
            (kept_by self.old) }
        ensures settled { IsSettled (meant F.M.valid F.M.add (F.monoids family.now)).add self.old
            self.new }
        ensures valid { AreValid (meant F.M.valid F.M.add (F.monoids family.now))
            (kept_by self.new) }
    {
        let added = add_copies(alloc, family, &mut self.base, self.waiting.as_slice());
        drop_first(&mut self.waiting, added);
    }

    /// What the store holds of a key, with the published sums up to a batch: one search a batch.
    pub fn look<F: Family>(
        &self,
        alloc: Global,
        family: &F,
        key: &KeyBytes,
        upto: u64,
    ) -> Result<Offered<E>, NoMemory>
    where
        F::M: Semigroup<El = E>,
        requires store { key.now.store < length (F.monoids family.now) }
        requires kept { AreValid (meant F.M.valid F.M.add (F.monoids family.now))
            (kept_by self.now) }
        ensures base { IfOk result (λ offered. offered.base
            ≡ base_sum (meant F.M.valid F.M.add (F.monoids family.now)).add self.now key.now) }
        ensures published { IfOk result (λ offered. HasSums
            ((meant F.M.valid F.M.add (F.monoids family.now)).valid key.now.store) upto
            (published_sum self.now key.now) offered.published) }
        ensures rising { IfOk result (λ offered. IsTrue (is_sorted nat_cmp offered.published)) }
    {
        let base = self.base_of(alloc, family, key)?;
        let published = self.published_of(alloc, family, key, upto)?;
        Ok(Offered { base, published })
    }

    // The base of a key: a copy of its sum, to which what waits is added.
    fn base_of<F: Family>(
        &self,
        alloc: Global,
        family: &F,
        key: &KeyBytes,
    ) -> Result<Option<E>, NoMemory>
    where
        F::M: Semigroup<El = E>,
        requires store { key.now.store < length (F.monoids family.now) }
        requires kept { AreValid (meant F.M.valid F.M.add (F.monoids family.now))
            (kept_by self.now) }
        ensures { IfOk result (λ base. base
            ≡ base_sum (meant F.M.valid F.M.add (F.monoids family.now)).add self.now key.now) }
    {
        let m = family.monoid(key.store);
        let sum = copy_found(alloc, m, self.base.get(key))?;
        with_values(alloc, m, sum, self.waiting.as_slice(), key)
    }

    // The published sums of a key up to a batch.
    fn published_of<F: Family>(
        &self,
        alloc: Global,
        family: &F,
        key: &KeyBytes,
        upto: u64,
    ) -> Result<Sums<E>, NoMemory>
    where
        F::M: Semigroup<El = E>,
        requires store { key.now.store < length (F.monoids family.now) }
        requires kept { AreValid (meant F.M.valid F.M.add (F.monoids family.now))
            (kept_by self.now) }
        ensures sums { IfOk result (HasSums
            ((meant F.M.valid F.M.add (F.monoids family.now)).valid key.now.store) upto
            (published_sum self.now key.now)) }
        ensures rising { IfOk result (λ sums. IsTrue (is_sorted nat_cmp sums)) }
    {
        let lists = up_to(self.rows.as_slice(), upto);
        let sums = gather_rows(alloc, family.monoid(key.store), lists, key, self.floor)?;
        Ok(Sums::from_vec(sums))
    }

    /// Puts the keys with a base or a published sum into a set.
    pub fn put_keys(&self, alloc: Global, keys: &mut KeySet) -> Result<(), NoMemory>
        ensures { OnOk result ((q : Key) → list_any (same_key q) keys.new
            ≡ (list_any (same_key q) keys.old || (list_any (λ row. same_key q row.0)
            (base_values self.now) || list_any (list_any (λ row. same_key q row.0))
            self.now.rows))) }
    {
        self.base.put_keys(alloc, keys)?;
        keys.put_rows(alloc, self.waiting.as_slice())?;
        put_list_keys(alloc, keys, self.rows.as_slice())
    }

    /// The keys with a base or a published sum, each once and in rising order.
    pub fn keys(&self, alloc: Global) -> Result<Vec<KeyBytes>, NoMemory>
        ensures { IfOk result (λ keys. (add : ℕ → E → E → E) → HasKeys add self.now keys.items) }
    {
        let mut keys = KeySet::new(alloc);
        self.put_keys(alloc, &mut keys)?;
        keys.into_keys(alloc)
    }

    /// The sum of each key over all published batches. All values are moved.
    pub fn into_sums<F: Family>(self, alloc: Global, family: &F) -> Result<KeySums<E>, NoMemory>
    where
        F::M: Semigroup<El = E>,
        requires kept { AreValid (meant F.M.valid F.M.add (F.monoids family.now)) (kept_by self) }
        ensures valid { IfOk result (AreValid (meant F.M.valid F.M.add (F.monoids family.now))) }
        ensures sums { IfOk result (HasKeySums (meant F.M.valid F.M.add (F.monoids family.now))
            (kept_by self)) }
        ensures rising { IfOk result (λ _. AllByRecursion (λ rows. IsTrue
            (is_sorted key_order rows)) self.rows) }
    {
        let Offline {
            base,
            waiting,
            rows,
            floor: _,
        } = self;
        let mut sums = base;
        sums.add_values(alloc, family, waiting)?;
        add_lists(alloc, family, &mut sums, rows)?;
        Ok(sums)
    }
}
