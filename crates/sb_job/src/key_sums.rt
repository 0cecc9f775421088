//! The sum of each key: hashed while it grows, and sorted once at the end.
ghost use Rattle.std.specs.Prelude.{◌≡◌, ◌<◌, ◌||◌, [], ◌∷◌, ◌++◌, List, length, slice_get, IsTrue, None, Some, MatchOption, IfOk, OnOk, OnErr};
ghost use Rattle.std.specs.FinMap.{find, is_sorted};
ghost use Rattle.std.specs.List.{IsDistinct, list_any};
ghost use Rattle.std.specs.List.Sorted.{IsPermutation, IsSortedByKey};
ghost use Rattle.std.specs.Map.{keys_of};
ghost use Rattle.sb_feed.specs.declared.key.KeyBytes.{KeyBytes as Key};
ghost use Rattle.sb_feed.specs.Keys.{key_order, same_key};
ghost use Rattle.sb_feed.specs.Jobs.{AreValid, meant, valid_by};
ghost use Rattle.sb_feed.specs.Stands.{keyed_values};
ghost use Rattle.sb_job.specs.Sums.{AddsValue, HasKeySums};

use crate::key_set::KeySet;
use crate::seed::Seed;
use sb_feed::{Family, KeyBytes, Part, RowList};
use sb_laws::{Key as _, NoMemory, Semigroup};
use std::alloc::Global;
use std::collections::HashMap;
use std::collections::hash_map::Entry;
use std::marker::Model;

/// The sum of each key that has a value, as it grows. Contracts see the keys with their sums, in no order.
#[derive(Drop)]
pub struct KeySums<E> {
    sums: HashMap<KeyBytes, E, Seed>,
}

impl<E> Model for KeySums<E> {
    ghost use Rattle.std.specs.Prelude.{List};
    ghost use Rattle.sb_feed.specs.declared.key.KeyBytes.{KeyBytes as Key};

    ghost Value = { List (Key × E) };

    ghost view = { λ s. s.sums.entries };
}

impl<E> KeySums<E> {
    /// No sums. No memory is taken.
    pub fn new(alloc: Global) -> KeySums<E>
        ensures { result ≡ [] }
    {
        KeySums::seeded(alloc, Seed::fixed())
    }

    /// No sums, in a table with this seed. No memory is taken.
    pub fn seeded(alloc: Global, seed: Seed) -> KeySums<E>
        ensures { result ≡ [] }
    {
        KeySums {
            sums: HashMap::with_hasher(alloc, seed),
        }
    }

    /// The sum of a key.
    pub fn get(&self, key: &KeyBytes) -> Option<&E>
        ensures { MatchOption result (find key_order key.now self.now ≡ None)
            (λ sum. find key_order key.now self.now ≡ Some sum.now) }
    {
        self.sums.get(key)
    }

    /// Adds a value on the right of its key's sum, in place and with one look-up. A refusal leaves the sums as they were.
    pub fn add<F: Family>(
        &mut self,
        alloc: Global,
        family: &F,
        key: KeyBytes,
        value: E,
    ) -> Result<(), NoMemory>
    where
        F::M: Semigroup<El = E>,
        requires store { key.store < length (F.monoids family.now) }
        requires value { valid_by F.M.valid (slice_get (F.monoids family.now) key.store) value }
        requires sums { AreValid (meant F.M.valid F.M.add (F.monoids family.now)) self.old }
        ensures valid { AreValid (meant F.M.valid F.M.add (F.monoids family.now)) self.new }
        ensures sums { OnOk result ((values : List (Key × E))
            → HasKeySums (meant F.M.valid F.M.add (F.monoids family.now)) values self.old
            → HasKeySums (meant F.M.valid F.M.add (F.monoids family.now))
            (values ++ (key, value) ∷ []) self.new) }
        ensures apart { IsDistinct same_key (keys_of self.new) }
        ensures err { OnErr result (self.new ≡ self.old) }
    {
        let store = key.store;
        match self.sums.entry(key)? {
            Entry::Occupied(sum) => family.monoid(store).plus(alloc, sum.into_mut(), value),
            Entry::Vacant(place) => {
                place.insert(value);
                Ok(())
            }
        }
    }

    /// Does what `add` does, by a copy of the value, and of the key where it is a new one.
    pub fn add_copy<F: Family>(
        &mut self,
        alloc: Global,
        family: &F,
        key: &KeyBytes,
        value: &E,
    ) -> Result<(), NoMemory>
    where
        F::M: Semigroup<El = E>,
        requires store { key.now.store < length (F.monoids family.now) }
        requires value { valid_by F.M.valid (slice_get (F.monoids family.now) key.now.store)
            value.now }
        requires sums { AreValid (meant F.M.valid F.M.add (F.monoids family.now)) self.old }
        ensures valid { AreValid (meant F.M.valid F.M.add (F.monoids family.now)) self.new }
        ensures sums { OnOk result ((values : List (Key × E))
            → HasKeySums (meant F.M.valid F.M.add (F.monoids family.now)) values self.old
            → HasKeySums (meant F.M.valid F.M.add (F.monoids family.now))
            (values ++ (key.now, value.now) ∷ []) self.new) }
        ensures apart { OnOk result (IsDistinct same_key (keys_of self.new)) }
        ensures err { OnErr result (self.new ≡ self.old) }
    {
        let copy = family.monoid(key.store).copy(alloc, value)?;
        match self.add_there(alloc, family, key, copy)? {
            None => Ok(()),
            Some(copy) => {
                let key = key.copy(alloc)?;
                self.add(alloc, family, key, copy)
            }
        }
    }

    // Adds a value on the right of its key's sum, or gives it back where the key has none.
    fn add_there<F: Family>(
        &mut self,
        alloc: Global,
        family: &F,
        key: &KeyBytes,
        value: E,
    ) -> Result<Option<E>, NoMemory>
    where
        F::M: Semigroup<El = E>,
        requires store { key.now.store < length (F.monoids family.now) }
        requires value { valid_by F.M.valid (slice_get (F.monoids family.now) key.now.store)
            value }
        requires sums { AreValid (meant F.M.valid F.M.add (F.monoids family.now)) self.old }
        ensures valid { AreValid (meant F.M.valid F.M.add (F.monoids family.now)) self.new }
        ensures ok { IfOk result (λ left. MatchOption left
            (AddsValue (meant F.M.valid F.M.add (F.monoids family.now)) key.now value self.old
            self.new) (λ back. (back ≡ value) × (self.new ≡ self.old))) }
        ensures err { OnErr result (self.new ≡ self.old) }
    {
        match self.sums.get_mut(key) {
            Some(sum) => {
                family.monoid(key.store).plus(alloc, sum, value)?;
                Ok(None)
            }
            None => Ok(Some(value)),
        }
    }

    /// Adds values, one after the other. After a refusal those before the refused one are added.
    pub fn add_values<F: Family>(
        &mut self,
        alloc: Global,
        family: &F,
        values: Vec<(KeyBytes, E)>,
    ) -> Result<(), NoMemory>
    where
        E: Drop,
        F::M: Semigroup<El = E>,
        requires values { AreValid (meant F.M.valid F.M.add (F.monoids family.now)) values.items }
        requires sums { AreValid (meant F.M.valid F.M.add (F.monoids family.now)) self.old }
        ensures valid { AreValid (meant F.M.valid F.M.add (F.monoids family.now)) self.new }
        ensures sums { OnOk result ((before : List (Key × E))
            → HasKeySums (meant F.M.valid F.M.add (F.monoids family.now)) before self.old
            → HasKeySums (meant F.M.valid F.M.add (F.monoids family.now))
            (before ++ values.items) self.new) }
    {
        for (key, value) in values {
            self.add(alloc, family, key, value)?;
        }
        Ok(())
    }

    /// Adds the sums of another table, each on the right of its key's: those of values that come behind. After a refusal
    /// some of them are added.
    pub fn add_sums<F: Family>(
        &mut self,
        alloc: Global,
        family: &F,
        more: KeySums<E>,
    ) -> Result<(), NoMemory>
    where
        E: Drop,
        F::M: Semigroup<El = E>,
        requires more { AreValid (meant F.M.valid F.M.add (F.monoids family.now)) more }
        requires sums { AreValid (meant F.M.valid F.M.add (F.monoids family.now)) self.old }
        ensures valid { OnOk result (AreValid (meant F.M.valid F.M.add (F.monoids family.now))
            self.new) }
        ensures sums { OnOk result ((values : List (Key × E))
            → HasKeySums (meant F.M.valid F.M.add (F.monoids family.now)) values self.old
            → HasKeySums (meant F.M.valid F.M.add (F.monoids family.now)) (values ++ more)
            self.new) }
        ensures apart { OnOk result (IsDistinct same_key (keys_of more)) }
        ensures behind { OnOk result ((values later : List (Key × E))
            → AreValid (meant F.M.valid F.M.add (F.monoids family.now)) values
            → AreValid (meant F.M.valid F.M.add (F.monoids family.now)) later
            → HasKeySums (meant F.M.valid F.M.add (F.monoids family.now)) values self.old
            → HasKeySums (meant F.M.valid F.M.add (F.monoids family.now)) later more
            → HasKeySums (meant F.M.valid F.M.add (F.monoids family.now)) (values ++ later)
            self.new) }
    {
        let values = entries_of(alloc, more.sums)?;
        self.add_values(alloc, family, values)
    }

    /// Puts the keys into a set.
    pub fn put_keys(&self, alloc: Global, keys: &mut KeySet) -> Result<(), NoMemory>
        ensures { OnOk result ((q : Key) → list_any (same_key q) keys.new
            ≡ (list_any (same_key q) keys.old || list_any (λ row. same_key q row.0) self.now)) }
    {
        for key in self.sums.keys() {
            keys.put(alloc, key)?;
        }
        Ok(())
    }

    /// Adds the values of rows, one after the other. After a refusal those before the refused one are added.
    pub fn add_rows<F: Family>(
        &mut self,
        alloc: Global,
        family: &F,
        rows: RowList<E>,
    ) -> Result<(), NoMemory>
    where
        E: Drop,
        F::M: Semigroup<El = E>,
        requires rows { AreValid (meant F.M.valid F.M.add (F.monoids family.now)) rows }
        requires sums { AreValid (meant F.M.valid F.M.add (F.monoids family.now)) self.old }
        ensures valid { AreValid (meant F.M.valid F.M.add (F.monoids family.now)) self.new }
        ensures sums { OnOk result ((values : List (Key × E))
            → HasKeySums (meant F.M.valid F.M.add (F.monoids family.now)) values self.old
            → HasKeySums (meant F.M.valid F.M.add (F.monoids family.now)) (values ++ rows)
            self.new) }
        ensures rising { OnOk result (IsTrue (is_sorted key_order rows)) }
    {
        self.add_values(alloc, family, rows.into_vec())
    }

    /// Adds the values of parts, one after the other. After a refusal those before the refused one are added.
    pub fn add_parts<F: Family>(
        &mut self,
        alloc: Global,
        family: &F,
        mut parts: Vec<Part<E>>,
    ) -> Result<(), NoMemory>
    where
        E: Drop,
        F::M: Semigroup<El = E>,
        requires parts { AreValid (meant F.M.valid F.M.add (F.monoids family.now))
            (keyed_values parts.items) }
        requires sums { AreValid (meant F.M.valid F.M.add (F.monoids family.now)) self.old }
        ensures valid { AreValid (meant F.M.valid F.M.add (F.monoids family.now)) self.new }
        ensures sums { OnOk result ((values : List (Key × E))
            → HasKeySums (meant F.M.valid F.M.add (F.monoids family.now)) values self.old
            → HasKeySums (meant F.M.valid F.M.add (F.monoids family.now))
            (values ++ keyed_values parts.items) self.new) }
    {
        self.drain_parts(alloc, family, &mut parts)
    }

    /// Takes parts out of their `Vec`, whose room stays, and adds their values, one after the other. After a refusal
    /// those before the refused one are added.
    pub fn drain_parts<F: Family>(
        &mut self,
        alloc: Global,
        family: &F,
        parts: &mut Vec<Part<E>>,
    ) -> Result<(), NoMemory>
    where
        E: Drop,
        F::M: Semigroup<El = E>,
        requires parts { AreValid (meant F.M.valid F.M.add (F.monoids family.now))
            (keyed_values parts.old.items) }
        requires sums { AreValid (meant F.M.valid F.M.add (F.monoids family.now)) self.old }
        ensures none { OnOk result (parts.new.items ≡ []) }
        ensures valid { AreValid (meant F.M.valid F.M.add (F.monoids family.now)) self.new }
        ensures sums { OnOk result ((values : List (Key × E))
            → HasKeySums (meant F.M.valid F.M.add (F.monoids family.now)) values self.old
            → HasKeySums (meant F.M.valid F.M.add (F.monoids family.now))
            (values ++ keyed_values parts.old.items) self.new) }
    {
        for part in parts.drain(..) {
            let Part { key, value, .. } = part;
            self.add(alloc, family, key, value)?;
        }
        Ok(())
    }

    /// The keys with their sums, in rising order of the keys. Takes n log n steps for n keys.
    pub fn into_rows(self, alloc: Global) -> Result<RowList<E>, NoMemory>
    where
        E: Drop,
        ensures same { IfOk result (λ rows. IsPermutation self rows) }
        ensures found { IfOk result (λ rows. (q : Key)
            → find key_order q rows ≡ find key_order q self) }
    {
        let mut rows = entries_of(alloc, self.sums)?;
        sort_rows(&mut rows);
        Ok(RowList::from_vec(rows))
    }
}

fn entries_of<E: Drop>(
    alloc: Global,
    sums: HashMap<KeyBytes, E, Seed>,
) -> Result<Vec<(KeyBytes, E)>, NoMemory>
    ensures entries { IfOk result (λ rows. rows.items ≡ sums.entries) }
    ensures apart { IfOk result (λ _. IsDistinct same_key (keys_of sums.entries)) }
{
    let mut rows = Vec::with_capacity(alloc, sums.len())?;
    for row in sums {
        rows.push(row)?;
    }
    Ok(rows)
}

fn sort_rows<E>(rows: &mut Vec<(KeyBytes, E)>)
    ensures same { IsPermutation rows.old.items rows.new.items }
    ensures sorted { IsSortedByKey (λ row. row.0) key_order rows.new.items }
{
    rows.sort_unstable_by(|a, b| a.0.cmp(&b.0));
}
