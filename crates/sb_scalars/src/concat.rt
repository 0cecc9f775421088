//! Lists joined one behind the other.
ghost use Rattle.std.specs.Prelude.{◌≡◌, ◌++◌, [], take, Ok};

use sb_laws::{Items, Key, Monoid, NoMemory, Semigroup, Undo};
use std::alloc::Global;
use std::marker::PhantomData;

/// The left list, then the right; the zero is the empty list.
#[derive(Drop)]
pub struct ConcatM<T: Key> {
    item: PhantomData<T>,
}

impl<T: Key> ConcatM<T> {
    /// The dictionary: the only value of its type.
    pub fn new() -> ConcatM<T>
        ensures { (dictionary : ConcatM T) → result ≡ dictionary }
    {
        ConcatM { item: PhantomData }
    }
}

impl<T: Key> Semigroup for ConcatM<T> {
    ghost use Rattle.std.proofs.Common.{append_assoc};

    type El = Items<T>;

    ghost valid = { λ _ _. Unit {0} };

    ghost add = { λ _ a b. a ++ b };

    ghost keeps_valid = { λ _ _ _ _ _. tt };

    ghost associates = { λ _ a b c _ _ _. append_assoc a b c };

    fn plus(&self, _alloc: Global, a: &mut Items<T>, b: Items<T>) -> Result<(), NoMemory> {
        a.append(b)
    }

    fn copy(&self, alloc: Global, a: &Items<T>) -> Result<Items<T>, NoMemory> {
        a.copy(alloc)
    }
}

impl<T: Key> Monoid for ConcatM<T> {
    ghost use Rattle.std.proofs.Common.{refl, append-nil};

    ghost neutral = { λ _. [] };

    ghost neutral_valid = { λ _. tt };

    ghost neutral_left = { λ _ _ _. refl };

    ghost neutral_right = { λ _ a _. append-nil a };

    fn zero(&self, alloc: Global) -> Result<Items<T>, NoMemory>
        ensures { result ≡ Ok [] }
    {
        Ok(Items::new(alloc))
    }

    fn is_zero(&self, a: &Items<T>) -> bool {
        a.is_empty()
    }
}

impl<T: Key> Undo for ConcatM<T> {
    type Undone = usize;

    ghost takes_back = { λ _ count later earlier. take count later ≡ earlier };

    fn plus_recorded(
        &self,
        alloc: Global,
        a: &mut Items<T>,
        b: Items<T>,
    ) -> Result<usize, NoMemory> {
        let count = a.len();
        self.plus(alloc, a, b)?;
        Ok(count)
    }

    fn undo(&self, a: &mut Items<T>, count: usize) {
        a.truncate(count)
    }
}
