//! Sets under union.
ghost use Rattle.std.specs.Prelude.{◌≡◌, Ok, [], IsOk};
ghost use Rattle.sb_gather.specs.Entries.{AreEntries};
ghost use Rattle.sb_gather.specs.Maps.{left_of, union, AnyKey};
ghost use Rattle.sb_gather.specs.Steps.{StepBack, StepsBack};

use crate::entries::{Joining, Steps, plus_items, plus_items_recorded, take_items_back};
use crate::place::Ordered;
use sb_laws::{Commuting, Items, Key, Monoid, NoMemory, Semigroup, Undo};
use std::alloc::Global;
use std::cmp::Ordering;
use std::marker::PhantomData;

/// A set: a list of keys, each before the next.
pub type Keys<K> = Items<K>;

/// Sets under union; the zero is the empty set.
#[derive(Drop)]
pub struct SetM<K: Key> {
    key: PhantomData<K>,
}

impl<K: Key> SetM<K> {
    /// The dictionary: the only value of its type.
    pub fn new() -> SetM<K>
        ensures { (dictionary : SetM K) → result ≡ dictionary }
    {
        SetM { key: PhantomData }
    }
}

impl<K: Key> Ordered for SetM<K> {
    type Entry = K;

    ghost order = { λ _. K.cmp };

    ghost total = { λ _. K.total };

    fn compare(&self, a: &K, b: &K) -> Ordering {
        a.cmp(b)
    }
}

impl<K: Key> Joining for SetM<K> {
    ghost use Rattle.sb_gather.specs.Maps.{set_laws};

    type Undone = ();

    ghost valid = { λ _. AnyKey };

    ghost joined = { λ _. left_of };

    ghost takes_back = { λ _ _ later earlier. later ≡ earlier };

    ghost laws = { λ _. set_laws K.cmp };

    fn join(&self, _alloc: Global, _a: &mut K, b: K) -> Result<(), NoMemory>
        ensures key { _a.new ≡ _a.old }
        ensures done { IsOk result }
    {
        drop(b);
        Ok(())
    }

    fn unjoin(&self, _a: &mut K, _nothing: ()) {}
}

impl<K: Key> Semigroup for SetM<K> {
    ghost use Rattle.sb_gather.specs.Maps.{set_laws};
    ghost use Rattle.sb_gather.specs.EntryLaws.{all_keep, entries_associate};

    type El = Keys<K>;

    ghost valid = { λ _ a. AreEntries K.cmp AnyKey a };

    ghost add = { λ _ a b. union K.cmp a b };

    ghost keeps_valid = { λ _ a b p q. all_keep K.cmp K.total AnyKey left_of (set_laws K.cmp) a b p q.valid };

    ghost associates = { λ _ a b c p q r. entries_associate K.cmp K.total AnyKey left_of (set_laws K.cmp) a b c p q r };

    fn plus(&self, alloc: Global, a: &mut Keys<K>, b: Keys<K>) -> Result<(), NoMemory> {
        plus_items(self, alloc, a, b)
    }

    fn copy(&self, alloc: Global, a: &Keys<K>) -> Result<Keys<K>, NoMemory> {
        a.copy(alloc)
    }
}

impl<K: Key> Monoid for SetM<K> {
    ghost use Rattle.std.proofs.Common.{refl};
    ghost use Rattle.sb_gather.specs.Maps.{set_laws};
    ghost use Rattle.sb_gather.specs.EntryLaws.{nothing_keeps, added_to_nothing};

    ghost neutral = { λ _. [] };

    ghost neutral_valid = { λ _. nothing_keeps K.cmp AnyKey };

    ghost neutral_left = { λ _ a p. added_to_nothing K.cmp K.total AnyKey left_of (set_laws K.cmp) a p.rising };

    ghost neutral_right = { λ _ _ _. refl };

    fn zero(&self, alloc: Global) -> Result<Keys<K>, NoMemory>
        ensures { result ≡ Ok [] }
    {
        Ok(Items::new(alloc))
    }

    fn is_zero(&self, a: &Keys<K>) -> bool {
        a.is_empty()
    }
}

impl<K: Key> Commuting for SetM<K> {
    ghost use Rattle.sb_gather.specs.Maps.{set_laws, set_commutes};
    ghost use Rattle.sb_gather.specs.EntryLaws.{entries_commute};

    ghost commutes = { λ _ a b p q. entries_commute K.cmp K.total AnyKey left_of (set_laws K.cmp) (set_commutes K.cmp K.same) a b p q };
}

impl<K: Key> Undo for SetM<K> {
    type Undone = Steps<()>;

    ghost takes_back = { λ _ steps later earlier. StepsBack (StepBack (λ _ y x. y ≡ x)) steps.items later earlier };

    fn plus_recorded(
        &self,
        alloc: Global,
        a: &mut Keys<K>,
        b: Keys<K>,
    ) -> Result<Steps<()>, NoMemory> {
        plus_items_recorded(self, alloc, a, b)
    }

    fn undo(&self, a: &mut Keys<K>, steps: Steps<()>) {
        take_items_back(self, a, steps)
    }
}
