//! The first and the last of what came.
ghost use Rattle.std.specs.Prelude.{◌≡◌, Ok, IsOk};

use sb_laws::{Key, NoMemory, Semigroup, Undo};
use std::alloc::Global;
use std::marker::PhantomData;

/// The left of two values.
#[derive(Drop)]
pub struct FirstM<T: Key> {
    value: PhantomData<T>,
}

impl<T: Key> FirstM<T> {
    /// The dictionary: the only value of its type.
    pub fn new() -> FirstM<T>
        ensures { (dictionary : FirstM T) → result ≡ dictionary }
    {
        FirstM { value: PhantomData }
    }
}

impl<T: Key> Semigroup for FirstM<T> {
    ghost use Rattle.std.proofs.Common.{refl};

    type El = T;

    ghost valid = { λ _ _. Unit {0} };

    ghost add = { λ _ a b. a };

    ghost keeps_valid = { λ _ _ _ _ _. tt };

    ghost associates = { λ _ _ _ _ _ _ _. refl };

    fn plus(&self, _alloc: Global, a: &mut T, b: T) -> Result<(), NoMemory>
        ensures value { a.new ≡ a.old }
        ensures done { IsOk result }
    {
        drop(b);
        Ok(())
    }

    fn copy(&self, alloc: Global, a: &T) -> Result<T, NoMemory> {
        a.copy(alloc)
    }
}

impl<T: Key> Undo for FirstM<T> {
    type Undone = ();

    ghost takes_back = { λ _ _ later earlier. later ≡ earlier };

    fn plus_recorded(&self, alloc: Global, a: &mut T, b: T) -> Result<(), NoMemory>
        ensures value { a.new ≡ a.old }
        ensures done { IsOk result }
    {
        self.plus(alloc, a, b)
    }

    fn undo(&self, _a: &mut T, _nothing: ()) {}
}

/// The right of two values.
#[derive(Drop)]
pub struct LastM<T: Key> {
    value: PhantomData<T>,
}

impl<T: Key> LastM<T> {
    /// The dictionary: the only value of its type.
    pub fn new() -> LastM<T>
        ensures { (dictionary : LastM T) → result ≡ dictionary }
    {
        LastM { value: PhantomData }
    }
}

impl<T: Key> Semigroup for LastM<T> {
    ghost use Rattle.std.proofs.Common.{refl};

    type El = T;

    ghost valid = { λ _ _. Unit {0} };

    ghost add = { λ _ a b. b };

    ghost keeps_valid = { λ _ _ _ _ _. tt };

    ghost associates = { λ _ _ _ _ _ _ _. refl };

    fn plus(&self, _alloc: Global, a: &mut T, b: T) -> Result<(), NoMemory>
        ensures value { a.new ≡ b }
        ensures done { IsOk result }
    {
        *a = b;
        Ok(())
    }

    fn copy(&self, alloc: Global, a: &T) -> Result<T, NoMemory> {
        a.copy(alloc)
    }
}

impl<T: Key> Undo for LastM<T> {
    type Undone = T;

    ghost takes_back = { λ _ kept _ earlier. kept ≡ earlier };

    fn plus_recorded(&self, _alloc: Global, a: &mut T, b: T) -> Result<T, NoMemory>
        ensures value { a.new ≡ b }
        ensures kept { result ≡ Ok a.old }
    {
        Ok(std::mem::replace(a, b))
    }

    fn undo(&self, a: &mut T, kept: T) {
        *a = kept;
    }
}
