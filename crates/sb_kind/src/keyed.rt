//! Sets of values, and the entries of maps by their keys.
ghost use Rattle.std.specs.Prelude.{◌≡◌, IsOk};
ghost use Rattle.sb_gather.specs.Maps.{AnyKey, left_of, by_key};
ghost use Rattle.sb_kind.specs.Elements.{val_cmp};

use crate::agg::Agg;
use sb_gather::{Joining, Ordered};
use sb_laws::NoMemory;
use sb_types::{Val, compare};
use std::alloc::Global;
use std::cmp::Ordering;

/// Sets of values under union.
#[derive(Drop)]
pub struct ValueSets;

impl Ordered for ValueSets {
    ghost use Rattle.sb_kind.specs.KindLaws.{val_total};

    type Entry = Val;

    ghost order = { λ _. val_cmp };

    ghost total = { λ _. val_total };

    fn compare(&self, a: &Val, b: &Val) -> Ordering {
        compare(a, b)
    }
}

impl Joining for ValueSets {
    ghost use Rattle.sb_gather.specs.Maps.{set_laws};

    type Undone = ();

    ghost valid = { λ _. AnyKey };

    ghost joined = { λ _. left_of };

    ghost takes_back = { λ _ _ later earlier. later ≡ earlier };

    ghost laws = { λ _. set_laws val_cmp };

    fn join(&self, _alloc: Global, _a: &mut Val, b: Val) -> Result<(), NoMemory>
        ensures key { _a.new ≡ _a.old }
        ensures done { IsOk result }
    {
        drop(b);
        Ok(())
    }

    fn unjoin(&self, _a: &mut Val, _nothing: ()) {}
}

/// The entries of a map by their keys.
#[derive(Drop)]
pub struct ByKey;

impl Ordered for ByKey {
    ghost use Rattle.std.proofs.lemmas.Cmp.{on_total};
    ghost use Rattle.sb_kind.specs.KindLaws.{val_total};

    type Entry = (Val, Agg);

    ghost order = { λ _. by_key val_cmp };

    ghost total = { λ _. on_total (λ entry. entry.0) val_total };

    fn compare(&self, a: &(Val, Agg), b: &(Val, Agg)) -> Ordering {
        compare(&a.0, &b.0)
    }
}
