//! Folds of what a store's stream emits.
ghost use Rattle.std.specs.Prelude.{◌≡◌, ◌<◌, ◌∷◌, ◌++◌, List, length, map, IfOk, OnOk};
ghost use Rattle.std.specs.List.{AllByRecursion};
ghost use Rattle.sb_check.specs.CheckedView.{checked_of};
ghost use Rattle.sb_kind.specs.Elements.{IsOf, plus};
ghost use Rattle.sb_kind.specs.KindView.{monoid_of};
ghost use Rattle.sb_laws.specs.Sums.{sum_of};
ghost use Rattle.sb_meaning.specs.Emissions.{Emission, emission_of, logged_in};
ghost use Rattle.sb_meaning.specs.Fold.{fold_of, is_in, picked};
ghost use Rattle.std.specs.Ordering.{eq_by_cmp};
ghost use Rattle.sb_types.specs.Order.{value_cmp};
ghost use Rattle.sb_types.specs.ValView.{value_of};
ghost use Rattle.sb_service.specs.Views.{view_service};

use crate::emissions::{Emitted, emit_all};
use crate::kinds::copy_kind;
use sb_check::{Checked, Log};
use sb_kind::{Agg, KindM};
use sb_laws::fold_list;
use sb_service::Service;
use sb_text::{NoMemory, Ranges};
use sb_types::{Val, compare};
use std::alloc::Global;

/// The sum of what a store is fed with this key by the records whose positions are in `take`, in the order of the log, and
/// none exactly where nothing is added. It evaluates the whole log. The sum is from left to right, by a plus after Algebird
/// (https://github.com/twitter/algebird); stores and services go by their numbers, as in `emit_all`.
pub fn slow_fold(
    alloc: Global,
    c: &Checked,
    log: &Log,
    services: &[Service],
    store: u32,
    key: &Val,
    take: &Ranges,
) -> Result<Option<Agg>, NoMemory>
    requires { store < length (checked_of c.now).declared.stores }
    ensures { IfOk result (λ sum. sum
        ≡ fold_of (checked_of c.now) (logged_in log.now) (map view_service services.now)
        store (value_of key.now) (is_in take.now)) }
{
    let all = emit_all(alloc, c, log, services, store)?;
    let m = KindM::new(copy_kind(alloc, &c.stores()[store as usize].kind)?);
    fold_picked(alloc, &m, all, key, take)
}

fn fold_picked(
    alloc: Global,
    m: &KindM,
    all: Vec<Emitted>,
    key: &Val,
    take: &Ranges,
) -> Result<Option<Agg>, NoMemory>
    requires { AllByRecursion (λ e. IsOf (monoid_of m.now.kind) e.value) all.items }
    ensures { IfOk result (λ sum. sum ≡ sum_of (plus (monoid_of m.now.kind))
        (picked (value_of key.now) (is_in take.now) (map emission_of all.items))) }
{
    let elements = pick(alloc, all, key, take)?;
    fold_list(alloc, m, elements)
}

fn pick(alloc: Global, all: Vec<Emitted>, key: &Val, take: &Ranges) -> Result<Vec<Agg>, NoMemory>
    ensures { IfOk result (λ elements. elements.items
        ≡ picked (value_of key.now) (is_in take.now) (map emission_of all.items)) }
{
    let mut elements = Vec::new(alloc);
    for e in all {
        push_picked(e, key, take, &mut elements)?;
    }
    Ok(elements)
}

fn push_picked(
    e: Emitted,
    key: &Val,
    take: &Ranges,
    elements: &mut Vec<Agg>,
) -> Result<(), NoMemory>
    ensures { (rest : List Emission) → OnOk result (elements.new.items
        ++ picked (value_of key.now) (is_in take.now) rest
        ≡ elements.old.items ++ picked (value_of key.now) (is_in take.now) (emission_of e ∷ rest)) }
{
    if has_key(&e, key) && is_taken(take, e.position) {
        elements.push(e.value)?;
    }
    Ok(())
}

fn has_key(e: &Emitted, key: &Val) -> bool
    ensures { result ≡ eq_by_cmp value_cmp (value_of key.now) (emission_of e.now).key }
{
    compare(key, &e.key).is_eq()
}

fn is_taken(take: &Ranges, position: u64) -> bool
    ensures { result ≡ is_in take.now position }
{
    take.contains(position)
}
