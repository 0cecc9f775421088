//! Sums in rising order: of keys over some batches, and of batches of one key.
ghost use Rattle.std.specs.Prelude.{◌≡◌, ◌↔◌, [], length, IsTrue, None, Some, MatchOption};
ghost use Rattle.std.specs.FinMap.{find, is_sorted};
ghost use Rattle.std.specs.Ordering.{nat_cmp};
ghost use Rattle.sb_feed.specs.Keys.{key_order};

use crate::key::KeyBytes;
use std::alloc::Global;
use std::marker::Model;

/// Keys with a value each, in rising order of the keys.
#[derive(Drop)]
pub struct RowList<E> {
    rows: Vec<(KeyBytes, E)>,
}

impl<E> Model for RowList<E> {
    ghost use Rattle.std.specs.Prelude.{List, IsTrue};
    ghost use Rattle.std.specs.FinMap.{is_sorted};
    ghost use Rattle.sb_feed.specs.Keys.{key_order};
    ghost use Rattle.sb_feed.specs.declared.key.KeyBytes.{KeyBytes as Key};

    ghost Value = { List (Key × E) };

    ghost view = { λ l. l.rows.items };

    ghost invariant = { λ l. IsTrue (is_sorted key_order l.rows.items) };
}

impl<E> RowList<E> {
    /// No rows. No memory is taken.
    pub fn new(alloc: Global) -> RowList<E>
        ensures { result ≡ [] }
    {
        RowList {
            rows: Vec::new(alloc),
        }
    }

    /// The rows of the `Vec`, in its room.
    pub fn from_vec(rows: Vec<(KeyBytes, E)>) -> RowList<E>
        requires { IsTrue (is_sorted key_order rows.items) }
        ensures { result ≡ rows.items }
    {
        RowList { rows }
    }

    /// The `Vec` that holds the rows, with its room. No memory is taken.
    pub fn into_vec(self) -> Vec<(KeyBytes, E)>
        ensures rows { result.items ≡ self }
        ensures rising { IsTrue (is_sorted key_order result.items) }
    {
        let RowList { rows } = self;
        rows
    }

    /// The rows, lent.
    pub fn as_slice(&self) -> &[(KeyBytes, E)]
        ensures rows { result.now ≡ self.now }
        ensures rising { IsTrue (is_sorted key_order result.now) }
    {
        self.rows.as_slice()
    }

    /// The value of a key, by a binary search.
    pub fn get(&self, key: &KeyBytes) -> Option<&E>
        ensures { MatchOption result (find key_order key.now self.now ≡ None)
            (λ value. find key_order key.now self.now ≡ Some value.now) }
    {
        match self.rows.binary_search_by(|row| row.0.cmp(key)) {
            Ok(at) => Some(&self.rows[at].1),
            Err(_) => None,
        }
    }

    /// The number of rows.
    pub fn len(&self) -> usize
        ensures { result ≡ length self.now }
    {
        self.rows.len()
    }

    /// Whether there is no row.
    pub fn is_empty(&self) -> bool
        ensures { IsTrue result ↔ (self.now ≡ []) }
    {
        self.rows.is_empty()
    }
}

/// The sum of each key over the batches from `from` on and below `to`.
#[derive(Drop)]
pub struct Rows<E> {
    pub from: u64,
    pub to: u64,
    pub rows: RowList<E>,
}

/// The sums of a key, one a batch, in rising order of the batches.
#[derive(Drop)]
pub struct Sums<E> {
    sums: Vec<(u64, E)>,
}

impl<E> Model for Sums<E> {
    ghost use Rattle.std.specs.Prelude.{List, ℕ, IsTrue};
    ghost use Rattle.std.specs.FinMap.{is_sorted};
    ghost use Rattle.std.specs.Ordering.{nat_cmp};

    ghost Value = { List (ℕ × E) };

    ghost view = { λ s. s.sums.items };

    ghost invariant = { λ s. IsTrue (is_sorted nat_cmp s.sums.items) };
}

impl<E> Sums<E> {
    /// No sums. No memory is taken.
    pub fn new(alloc: Global) -> Sums<E>
        ensures { result ≡ [] }
    {
        Sums {
            sums: Vec::new(alloc),
        }
    }

    /// The sums of the `Vec`, in its room.
    pub fn from_vec(sums: Vec<(u64, E)>) -> Sums<E>
        requires { IsTrue (is_sorted nat_cmp sums.items) }
        ensures { result ≡ sums.items }
    {
        Sums { sums }
    }

    /// The `Vec` that holds the sums, with its room. No memory is taken.
    pub fn into_vec(self) -> Vec<(u64, E)>
        ensures sums { result.items ≡ self }
        ensures rising { IsTrue (is_sorted nat_cmp result.items) }
    {
        let Sums { sums } = self;
        sums
    }

    /// The sums, lent.
    pub fn as_slice(&self) -> &[(u64, E)]
        ensures sums { result.now ≡ self.now }
        ensures rising { IsTrue (is_sorted nat_cmp result.now) }
    {
        self.sums.as_slice()
    }

    /// The number of sums.
    pub fn len(&self) -> usize
        ensures { result ≡ length self.now }
    {
        self.sums.len()
    }

    /// Whether there is no sum.
    pub fn is_empty(&self) -> bool
        ensures { IsTrue result ↔ (self.now ≡ []) }
    {
        self.sums.is_empty()
    }
}
