//! Sets of keys.
ghost use Rattle.std.specs.Prelude.{◌≡◌, ◌||◌, ◌&&◌, [], nat_le, OnOk, IfOk};
ghost use Rattle.std.specs.List.{list_any};
ghost use Rattle.std.specs.List.Sorted.{IsStrictlySortedBy};
ghost use Rattle.sb_feed.specs.declared.key.KeyBytes.{KeyBytes as Key};
ghost use Rattle.sb_feed.specs.Keys.{key_order, same_key};

use sb_feed::{KeyBytes, Part};
use sb_laws::{Key as _, NoMemory};
use std::alloc::Global;
use std::collections::BTreeSet;
use std::marker::Model;

/// A set of keys, of which contracts see the list.
#[derive(Drop)]
pub struct KeySet {
    keys: BTreeSet<KeyBytes>,
}

impl Model for KeySet {
    ghost use Rattle.std.specs.Prelude.{List};
    ghost use Rattle.sb_feed.specs.declared.key.KeyBytes.{KeyBytes as Key};

    ghost Value = { List Key };

    ghost view = { λ s. s.keys.keys };
}

impl KeySet {
    /// No keys. No memory is taken.
    pub fn new(alloc: Global) -> KeySet
        ensures { result ≡ [] }
    {
        KeySet {
            keys: BTreeSet::new(alloc),
        }
    }

    /// Puts a key into the set. A copy is made of a new one alone.
    pub fn put(&mut self, alloc: Global, key: &KeyBytes) -> Result<(), NoMemory>
        ensures { OnOk result ((q : Key) → list_any (same_key q) self.new
            ≡ (list_any (same_key q) self.old || same_key q key.now)) }
    {
        if !self.keys.contains(key) {
            let copy = key.copy(alloc)?;
            self.keys.insert(copy)?;
        }
        Ok(())
    }

    /// Puts the keys of rows into the set.
    pub fn put_rows<E>(&mut self, alloc: Global, rows: &[(KeyBytes, E)]) -> Result<(), NoMemory>
        ensures { OnOk result ((q : Key) → list_any (same_key q) self.new
            ≡ (list_any (same_key q) self.old || list_any (λ row. same_key q row.0) rows.now)) }
    {
        for row in rows {
            self.put(alloc, &row.0)?;
        }
        Ok(())
    }

    /// Puts the keys of the parts of the batches from one on into the set.
    pub fn put_parts<E>(
        &mut self,
        alloc: Global,
        parts: &[Part<E>],
        from: u64,
    ) -> Result<(), NoMemory>
        ensures { OnOk result ((q : Key) → list_any (same_key q) self.new
            ≡ (list_any (same_key q) self.old || list_any
            (λ part. same_key q part.key && nat_le from part.batch) parts.now)) }
    {
        for part in parts {
            if from <= part.batch {
                self.put(alloc, &part.key)?;
            }
        }
        Ok(())
    }

    /// The keys in rising order.
    pub fn into_keys(self, alloc: Global) -> Result<Vec<KeyBytes>, NoMemory>
        ensures { IfOk result (λ list. (list.items ≡ self)
            × IsStrictlySortedBy key_order list.items) }
    {
        keys_of(alloc, self.keys)
    }
}

fn keys_of(alloc: Global, keys: BTreeSet<KeyBytes>) -> Result<Vec<KeyBytes>, NoMemory>
    ensures { IfOk result (λ list. (list.items ≡ keys.keys)
        × IsStrictlySortedBy key_order list.items) }
{
    let mut list = Vec::with_capacity(alloc, keys.len())?;
    for key in keys {
        list.push(key)?;
    }
    Ok(list)
}
