//! A dictionary that may refuse.
ghost use Rattle.std.specs.Prelude.{◌≡◌};

use sb_laws::{Commuting, NoMemory, Semigroup, Undo};
use std::alloc::{AllocError, Global};

// The greater of two numbers, refused where the right one is 13.
#[derive(Drop)]
pub struct Greater;

impl Semigroup for Greater {
    ghost use Rattle.std.specs.Int.{int_max};
    ghost use Rattle.std.proofs.Common.{arith};
    ghost use Rattle.std.proofs.lemmas.Int.{ints, clamps};

    type El = i64;

    ghost valid = { λ _ _. Unit {0} };

    ghost add = { λ _ a b. int_max a b };

    ghost keeps_valid = { λ _ _ _ _ _. tt };

    ghost associates = { λ _ a b c _ _ _. Prim.omega (arith, ints, clamps) };

    fn plus(&self, _alloc: Global, a: &mut i64, b: i64) -> Result<(), NoMemory> {
        if b == 13 {
            return Err(AllocError);
        }
        *a = (*a).max(b);
        Ok(())
    }

    fn copy(&self, _alloc: Global, a: &i64) -> Result<i64, NoMemory> {
        Ok(*a)
    }
}

impl Commuting for Greater {
    ghost use Rattle.std.proofs.Common.{arith};
    ghost use Rattle.std.proofs.lemmas.Int.{ints, clamps};

    ghost commutes = { λ _ a b _ _. Prim.omega (arith, ints, clamps) };
}

impl Undo for Greater {
    type Undone = i64;

    ghost takes_back = { λ _ kept _ earlier. kept ≡ earlier };

    fn plus_recorded(&self, alloc: Global, a: &mut i64, b: i64) -> Result<i64, NoMemory> {
        let kept = *a;
        self.plus(alloc, a, b)?;
        Ok(kept)
    }

    fn undo(&self, a: &mut i64, kept: i64) {
        *a = kept;
    }
}
