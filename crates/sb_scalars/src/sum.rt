//! Sums of i64 that wrap around.
ghost use Rattle.std.specs.Prelude.{◌≡◌, Ok, pos, IsOk};
ghost use Rattle.std.specs.Int.{w64, int_wrapping_add};

use sb_laws::{Commuting, Monoid, NoMemory, Semigroup, Undo};
use std::alloc::Global;

/// The wrapping sum of numbers, with the zero 0.
#[derive(Clone, Copy)]
pub struct SumM;

impl SumM {
    /// The dictionary: the only value of its type.
    pub fn new() -> SumM
        ensures { (dictionary : SumM) → result ≡ dictionary }
    {
        SumM
    }
}

impl Semigroup for SumM {
    ghost use Rattle.std.specs.Prelude.{FitsSigned};
    ghost use Rattle.sb_scalars.specs.Wrapping.{wrapping_fits, wrapping_associates};

    type El = i64;

    ghost valid = { λ _ a. FitsSigned w64 a };

    ghost add = { λ _ a b. int_wrapping_add w64 a b };

    ghost keeps_valid = { λ _ a b p q. wrapping_fits a b };

    ghost associates = { λ _ a b c p q r. wrapping_associates a b c };

    fn plus(&self, _alloc: Global, a: &mut i64, b: i64) -> Result<(), NoMemory>
        ensures sum { a.new ≡ int_wrapping_add w64 a.old b }
        ensures done { IsOk result }
    {
        *a = a.wrapping_add(b);
        Ok(())
    }

    fn copy(&self, _alloc: Global, a: &i64) -> Result<i64, NoMemory>
        ensures copied { result ≡ Ok a.now }
    {
        Ok(*a)
    }
}

impl Monoid for SumM {
    ghost use Rattle.sb_scalars.specs.Wrapping.{wrapping_zero, wrapping_commutes};
    ghost use Rattle.std.proofs.Common.{rules, ◌∙◌};

    ghost neutral = { λ _. pos 0 };

    ghost neutral_valid = { λ _. Prim.search rules };

    ghost neutral_left = { λ _ a p. wrapping_zero a p };

    ghost neutral_right = { λ _ a p. wrapping_commutes a (pos 0) ∙ wrapping_zero a p };

    fn zero(&self, _alloc: Global) -> Result<i64, NoMemory>
        ensures { result ≡ Ok (pos 0) }
    {
        Ok(0)
    }

    fn is_zero(&self, a: &i64) -> bool {
        *a == 0
    }
}

impl Commuting for SumM {
    ghost use Rattle.sb_scalars.specs.Wrapping.{wrapping_commutes};

    ghost commutes = { λ _ a b p q. wrapping_commutes a b };
}

impl Undo for SumM {
    type Undone = i64;

    ghost takes_back = { λ _ kept _ earlier. kept ≡ earlier };

    fn plus_recorded(&self, alloc: Global, a: &mut i64, b: i64) -> Result<i64, NoMemory>
        ensures sum { a.new ≡ int_wrapping_add w64 a.old b }
        ensures kept { result ≡ Ok a.old }
    {
        let kept = *a;
        self.plus(alloc, a, b)?;
        Ok(kept)
    }

    fn undo(&self, a: &mut i64, kept: i64) {
        *a = kept;
    }
}
