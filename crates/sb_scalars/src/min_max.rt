//! The lesser and the greater of two numbers.
ghost use Rattle.std.specs.Prelude.{◌≡◌, FitsSigned, Ok, IsOk};
ghost use Rattle.std.specs.Int.{w64, int_min, int_max};

use sb_laws::{Commuting, NoMemory, Semigroup, Undo};
use std::alloc::Global;

/// The lesser of two numbers.
#[derive(Clone, Copy)]
pub struct MinM;

impl MinM {
    /// The dictionary: the only value of its type.
    pub fn new() -> MinM
        ensures { (dictionary : MinM) → result ≡ dictionary }
    {
        MinM
    }
}

impl Semigroup for MinM {
    ghost use Rattle.sb_scalars.specs.MinMax.{min_fits, min_associates};

    type El = i64;

    ghost valid = { λ _ a. FitsSigned w64 a };

    ghost add = { λ _ a b. int_min a b };

    ghost keeps_valid = { λ _ a b p q. min_fits a b p q };

    ghost associates = { λ _ a b c p q r. min_associates a b c };

    fn plus(&self, _alloc: Global, a: &mut i64, b: i64) -> Result<(), NoMemory>
        ensures sum { a.new ≡ int_min a.old b }
        ensures done { IsOk result }
    {
        *a = (*a).min(b);
        Ok(())
    }

    fn copy(&self, _alloc: Global, a: &i64) -> Result<i64, NoMemory>
        ensures { result ≡ Ok a.now }
    {
        Ok(*a)
    }
}

impl Commuting for MinM {
    ghost use Rattle.sb_scalars.specs.MinMax.{min_commutes};

    ghost commutes = { λ _ a b p q. min_commutes a b };
}

impl Undo for MinM {
    type Undone = i64;

    ghost takes_back = { λ _ kept _ earlier. kept ≡ earlier };

    fn plus_recorded(&self, alloc: Global, a: &mut i64, b: i64) -> Result<i64, NoMemory>
        ensures sum { a.new ≡ int_min a.old b }
        ensures kept { result ≡ Ok a.old }
    {
        let kept = *a;
        self.plus(alloc, a, b)?;
        Ok(kept)
    }

    fn undo(&self, a: &mut i64, kept: i64) {
        *a = kept;
    }
}

/// The greater of two numbers.
#[derive(Clone, Copy)]
pub struct MaxM;

impl MaxM {
    /// The dictionary: the only value of its type.
    pub fn new() -> MaxM
        ensures { (dictionary : MaxM) → result ≡ dictionary }
    {
        MaxM
    }
}

impl Semigroup for MaxM {
    ghost use Rattle.sb_scalars.specs.MinMax.{max_fits, max_associates};

    type El = i64;

    ghost valid = { λ _ a. FitsSigned w64 a };

    ghost add = { λ _ a b. int_max a b };

    ghost keeps_valid = { λ _ a b p q. max_fits a b p q };

    ghost associates = { λ _ a b c p q r. max_associates a b c };

    fn plus(&self, _alloc: Global, a: &mut i64, b: i64) -> Result<(), NoMemory>
        ensures sum { a.new ≡ int_max a.old b }
        ensures done { IsOk result }
    {
        *a = (*a).max(b);
        Ok(())
    }

    fn copy(&self, _alloc: Global, a: &i64) -> Result<i64, NoMemory>
        ensures { result ≡ Ok a.now }
    {
        Ok(*a)
    }
}

impl Commuting for MaxM {
    ghost use Rattle.sb_scalars.specs.MinMax.{max_commutes};

    ghost commutes = { λ _ a b p q. max_commutes a b };
}

impl Undo for MaxM {
    type Undone = i64;

    ghost takes_back = { λ _ kept _ earlier. kept ≡ earlier };

    fn plus_recorded(&self, alloc: Global, a: &mut i64, b: i64) -> Result<i64, NoMemory>
        ensures sum { a.new ≡ int_max a.old b }
        ensures kept { result ≡ Ok a.old }
    {
        let kept = *a;
        self.plus(alloc, a, b)?;
        Ok(kept)
    }

    fn undo(&self, a: &mut i64, kept: i64) {
        *a = kept;
    }
}
