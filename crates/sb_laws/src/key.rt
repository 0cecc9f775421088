//! Keys of sets, maps and stores.
ghost use Rattle.std.specs.Prelude.{◌≡◌, IfOk};
ghost use Rattle.std.specs.FinMap.{IsAntisymmetric};

use crate::NoMemory;
use std::alloc::Global;

/// A key of a set, a map or a store: totally ordered, and two keys that tie are equal.
pub trait Key: Ord + Drop + Sized {
    /// An equal key.
    fn copy(&self, alloc: Global) -> Result<Self, NoMemory>
        ensures { IfOk result (λ key. key ≡ self.now) };

    /// Two keys that tie are equal.
    ghost same: { IsAntisymmetric Self.cmp };
}

impl Key for i64 {
    ghost use Rattle.std.specs.FinMap.{int_cmp-IsAntisymmetric};

    ghost same = { int_cmp-IsAntisymmetric };

    fn copy(&self, _alloc: Global) -> Result<i64, NoMemory> {
        Ok(*self)
    }
}
