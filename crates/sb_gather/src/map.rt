//! Maps added key by key.
ghost use Rattle.std.specs.Prelude.{◌≡◌, Ok, []};
ghost use Rattle.sb_gather.specs.Entries.{AreEntries};
ghost use Rattle.sb_gather.specs.Maps.{by_key, values_added, maps_added};
ghost use Rattle.sb_gather.specs.Steps.{StepBack, StepsBack};

use crate::entries::{Joining, Steps, plus_items, plus_items_recorded, take_items_back};
use crate::place::Ordered;
use sb_laws::{Commuting, Items, Key, Monoid, NoMemory, Semigroup, Undo};
use std::alloc::Global;
use std::cmp::Ordering;
use std::marker::PhantomData;

/// A map: a list of keys with their values, each key before the next.
pub type Entries<K, E> = Items<(K, E)>;

/// Maps added key by key, where a key that both have gets the sum by the part; the zero is the empty map. The part is a
/// semigroup that can take a plus back (`Undo`), so that no map is copied: a key that is refused leaves the others as
/// they were.
#[derive(Drop)]
pub struct MapM<K: Key, M: Undo + Drop> {
    pub part: M,
    key: PhantomData<K>,
}

impl<K: Key, M: Undo + Drop> MapM<K, M> {
    /// The dictionary of maps whose values are added by the part.
    pub fn new(part: M) -> MapM<K, M>
        ensures { result.part ≡ part }
    {
        MapM {
            part,
            key: PhantomData,
        }
    }
}

impl<K: Key, M: Undo + Drop> Ordered for MapM<K, M> {
    ghost use Rattle.std.proofs.lemmas.Cmp.{on_total};

    type Entry = (K, M::El);

    ghost order = { λ _. by_key K.cmp };

    ghost total = { λ _. on_total (λ entry. entry.0) K.total };

    fn compare(&self, a: &(K, M::El), b: &(K, M::El)) -> Ordering {
        a.0.cmp(&b.0)
    }
}

impl<K: Key, M: Undo + Drop> Joining for MapM<K, M> {
    ghost use Rattle.sb_gather.specs.Maps.{map_laws, part_laws, ValueBack};

    type Undone = M::Undone;

    ghost valid = { λ m entry. M.valid m.part entry.1 };

    ghost joined = { λ m a b. values_added (M.add m.part) a b };

    ghost takes_back = { λ m. ValueBack (M.takes_back m.part) };

    ghost laws = { λ m. map_laws K.cmp (M.valid m.part) (M.add m.part) (part_laws (M.valid m.part) (M.add m.part) (M.keeps_valid m.part) (M.associates m.part)) };

    fn join(
        &self,
        alloc: Global,
        a: &mut (K, M::El),
        b: (K, M::El),
    ) -> Result<M::Undone, NoMemory> {
        let (_, value) = b;
        self.part.plus_recorded(alloc, &mut a.1, value)
    }

    fn unjoin(&self, a: &mut (K, M::El), undone: M::Undone) {
        self.part.undo(&mut a.1, undone)
    }
}

impl<K: Key, M: Undo + Drop> Semigroup for MapM<K, M> {
    ghost use Rattle.std.proofs.lemmas.Cmp.{on_total};
    ghost use Rattle.sb_gather.specs.Maps.{map_keeps, map_associates};

    type El = Entries<K, M::El>;

    ghost valid = { λ m a. AreEntries (by_key K.cmp) (λ entry. M.valid m.part entry.1) a };

    ghost add = { λ m a b. maps_added K.cmp (M.add m.part) a b };

    ghost keeps_valid = { λ m a b p q. map_keeps K.cmp K.total (M.valid m.part) (M.add m.part) (M.keeps_valid m.part) (M.associates m.part) a b p q };

    ghost associates = { λ m a b c p q r. map_associates K.cmp K.total (M.valid m.part) (M.add m.part) (M.keeps_valid m.part) (M.associates m.part) a b c p q r };

    fn plus(
        &self,
        alloc: Global,
        a: &mut Entries<K, M::El>,
        b: Entries<K, M::El>,
    ) -> Result<(), NoMemory> {
        plus_items(self, alloc, a, b)
    }

    fn copy(&self, alloc: Global, a: &Entries<K, M::El>) -> Result<Entries<K, M::El>, NoMemory> {
        let mut entries = Vec::with_capacity(alloc, a.len())?;
        for entry in a.as_slice() {
            let key = entry.0.copy(alloc)?;
            let value = self.part.copy(alloc, &entry.1)?;
            entries.push((key, value))?;
        }
        Ok(Items::from_vec(entries))
    }
}

impl<K: Key, M: Undo + Drop> Monoid for MapM<K, M> {
    ghost use Rattle.std.proofs.Common.{refl};
    ghost use Rattle.sb_gather.specs.Maps.{map_onto_nothing};
    ghost use Rattle.sb_gather.specs.EntryLaws.{nothing_keeps};

    ghost neutral = { λ _. [] };

    ghost neutral_valid = { λ m. nothing_keeps (by_key K.cmp) (λ entry. M.valid m.part entry.1) };

    ghost neutral_left = { λ m a p. map_onto_nothing K.cmp K.total (M.valid m.part) (M.add m.part) (M.keeps_valid m.part) (M.associates m.part) a p };

    ghost neutral_right = { λ _ _ _. refl };

    fn zero(&self, alloc: Global) -> Result<Entries<K, M::El>, NoMemory>
        ensures { result ≡ Ok [] }
    {
        Ok(Items::new(alloc))
    }

    fn is_zero(&self, a: &Entries<K, M::El>) -> bool {
        a.is_empty()
    }
}

impl<K: Key, M: Undo + Commuting + Drop> Commuting for MapM<K, M> {
    ghost use Rattle.sb_gather.specs.Maps.{map_sums_commute};

    ghost commutes = { λ m a b p q. map_sums_commute K.cmp K.total (M.valid m.part) (M.add m.part) (M.keeps_valid m.part) (M.associates m.part) K.same (M.commutes m.part) a b p q };
}

impl<K: Key, M: Undo + Drop> Undo for MapM<K, M> {
    ghost use Rattle.sb_gather.specs.Maps.{ValueBack};

    type Undone = Steps<M::Undone>;

    ghost takes_back = { λ m steps later earlier. StepsBack (StepBack (ValueBack (M.takes_back m.part))) steps.items later earlier };

    fn plus_recorded(
        &self,
        alloc: Global,
        a: &mut Entries<K, M::El>,
        b: Entries<K, M::El>,
    ) -> Result<Steps<M::Undone>, NoMemory> {
        plus_items_recorded(self, alloc, a, b)
    }

    fn undo(&self, a: &mut Entries<K, M::El>, steps: Steps<M::Undone>) {
        take_items_back(self, a, steps)
    }
}
