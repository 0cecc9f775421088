//! What a store's stream emits.
ghost use Rattle.std.specs.Prelude.{◌≡◌, ◌<◌, length, map, IfOk};
ghost use Rattle.std.specs.List.{AllByRecursion};
ghost use Rattle.sb_check.specs.CheckedView.{checked_of};
ghost use Rattle.sb_kind.specs.Elements.{IsOf};
ghost use Rattle.sb_kind.specs.KindView.{monoid_of};
ghost use Rattle.sb_meaning.specs.Emissions.{emission, emission_of, emissions, logged_in, monoid_at};
ghost use Rattle.sb_meaning.specs.Streams.{at_of};
ghost use Rattle.sb_service.specs.Views.{view_service};

use crate::flows::{let_lists, stream};
use crate::parts::halves_in;
use crate::stages::At;
use sb_check::{Checked, Log};
use sb_kind::{Agg, Kind, prepare};
use sb_service::Service;
use sb_text::NoMemory;
use sb_types::Val;
use std::alloc::Global;

/// The position of a record in its log, from 0, a key, and the element that the value at it gives.
#[derive(Drop)]
pub struct Emitted {
    pub position: u64,
    pub key: Val,
    pub value: Agg,
}

/// What the stream of a store emits over the whole log, in its order; stores go by their numbers, from 0. Every element is
/// one of the store's monoid. There is a service for each that the program declares, in its order; one that is left out
/// has no rows. Streams are producers as in Summingbird (PVLDB 7(13), 2014), and a value is prepared for a plus after
/// Algebird (https://github.com/twitter/algebird). The lists of all lets are kept until the call ends.
pub fn emit_all(
    alloc: Global,
    c: &Checked,
    log: &Log,
    services: &[Service],
    store: u32,
) -> Result<Vec<Emitted>, NoMemory>
    requires { store < length (checked_of c.now).declared.stores }
    ensures value { IfOk result (λ all. map emission_of all.items
        ≡ emissions (checked_of c.now) (logged_in log.now) (map view_service services.now) store) }
    ensures valid { IfOk result (λ all. AllByRecursion
        (λ e. IsOf (monoid_at (checked_of c.now) store) e.value) all.items) }
{
    let lets = let_lists(alloc, c.lets(), log.records(), services)?;
    let declared = &c.stores()[store as usize];
    let values = stream(alloc, &declared.flow, log.records(), services, &lets)?;
    prepare_all(alloc, &declared.kind, values)
}

fn prepare_all(alloc: Global, kind: &Kind, values: Vec<At>) -> Result<Vec<Emitted>, NoMemory>
    ensures value { IfOk result (λ all. map emission_of all.items
        ≡ map (emission (monoid_of kind.now)) (map at_of values.items)) }
    ensures valid { IfOk result (λ all. AllByRecursion (λ e. IsOf (monoid_of kind.now) e.value)
        all.items) }
{
    let mut all = Vec::with_capacity(alloc, values.len())?;
    for x in values {
        all.push(prepare_one(alloc, kind, x)?)?;
    }
    Ok(all)
}

fn prepare_one(alloc: Global, kind: &Kind, x: At) -> Result<Emitted, NoMemory>
    ensures value { IfOk result (λ e. emission_of e ≡ emission (monoid_of kind.now) (at_of x)) }
    ensures valid { IfOk result (λ e. IsOf (monoid_of kind.now) e.value) }
{
    let (key, value) = halves_in(x.1);
    let value = prepare(alloc, kind, value)?;
    Ok(Emitted {
        position: x.0,
        key,
        value,
    })
}
