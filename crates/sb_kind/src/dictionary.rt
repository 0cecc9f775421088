//! Kinds as dictionaries: any kind, and those that commute.
ghost use Rattle.std.specs.Prelude.{◌≡◌, ◌↔◌, true, IsSome, IfSome};
ghost use Rattle.sb_kind.specs.Elements.{IsOf, plus};
ghost use Rattle.sb_kind.specs.KindView.{monoid_of};
ghost use Rattle.sb_kind.specs.Monoids.{commutes};

use crate::agg::Agg;
use crate::copying::copy;
use crate::kind::{Kind, commutes};
use crate::plus::plus;
use sb_laws::{Commuting, NoMemory, Semigroup};
use std::alloc::Global;

/// The dictionary of a kind.
#[derive(Drop)]
pub struct KindM {
    pub kind: Kind,
}

impl KindM {
    /// The dictionary of this kind.
    pub fn new(kind: Kind) -> KindM
        ensures { result.kind ≡ kind }
    {
        KindM { kind }
    }
}

impl Semigroup for KindM {
    ghost use Rattle.sb_kind.specs.KindLaws.{keeps, associates};

    type El = Agg;

    ghost valid = { λ m a. IsOf (monoid_of m.kind) a };

    ghost add = { λ m a b. plus (monoid_of m.kind) a b };

    ghost keeps_valid = { λ m a b p q. keeps (monoid_of m.kind) a b p q };

    ghost associates = { λ m a b c p q r. associates (monoid_of m.kind) a b c p q r };

    fn plus(&self, alloc: Global, a: &mut Agg, b: Agg) -> Result<(), NoMemory> {
        plus(&self.kind, alloc, a, b)
    }

    fn copy(&self, alloc: Global, a: &Agg) -> Result<Agg, NoMemory> {
        copy(alloc, a)
    }
}

/// The dictionary of a kind that commutes.
#[derive(Drop)]
pub struct OnlineM {
    pub kind: Kind,
    ghost any_order: { commutes (monoid_of kind) ≡ true },
}

impl OnlineM {
    ghost use Rattle.sb_kind.specs.KindView.{monoid_of};

    /// The dictionary of this kind, and none exactly where it doesn't commute.
    pub fn new(kind: Kind) -> Option<OnlineM>
        ensures kind { IfSome result (λ m. m.kind ≡ kind) }
        ensures commutes { IsSome result ↔ (commutes (monoid_of kind) ≡ true) }
    {
        if commutes(&kind) {
            Some(OnlineM { kind })
        } else {
            None
        }
    }
}

impl Semigroup for OnlineM {
    ghost use Rattle.sb_kind.specs.KindLaws.{keeps, associates};

    type El = Agg;

    ghost valid = { λ m a. IsOf (monoid_of m.kind) a };

    ghost add = { λ m a b. plus (monoid_of m.kind) a b };

    ghost keeps_valid = { λ m a b p q. keeps (monoid_of m.kind) a b p q };

    ghost associates = { λ m a b c p q r. associates (monoid_of m.kind) a b c p q r };

    fn plus(&self, alloc: Global, a: &mut Agg, b: Agg) -> Result<(), NoMemory> {
        plus(&self.kind, alloc, a, b)
    }

    fn copy(&self, alloc: Global, a: &Agg) -> Result<Agg, NoMemory> {
        copy(alloc, a)
    }
}

impl Commuting for OnlineM {
    ghost use Rattle.sb_kind.specs.KindLaws.{any_order};

    ghost commutes = { λ m a b p q. any_order (monoid_of m.kind) m.any_order a b p q };
}
