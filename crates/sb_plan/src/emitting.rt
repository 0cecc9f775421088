//! Records with what they add to stores.
ghost use Rattle.std.specs.Prelude.{◌≡◌, ◌<◌, ◌+◌, [], true, IfOk, IsTrue, OnOk, length, map, slice_get};
ghost use Rattle.std.specs.FinMap.{is_sorted};
ghost use Rattle.std.specs.List.{AllByRecursion, sum_by};
ghost use Rattle.sb_batcher.specs.Batches.{batch_of};
ghost use Rattle.sb_check.specs.Log.{are_in_batches, is_batch, logged_of};
ghost use Rattle.sb_check.specs.OnlineView.{online_of};
ghost use Rattle.sb_feed.specs.Jobs.{AreValid, IsRecord, add_by, meant, valid_by};
ghost use Rattle.sb_feed.specs.Keys.{key_order};
ghost use Rattle.sb_plan.specs.Entries.{entry_record};
ghost use Rattle.sb_plan.specs.Given.{fed_at, let_values, planned};
ghost use Rattle.sb_plan.specs.Parts.{IsFed, parts_below, record_in, with_fed};
ghost use Rattle.sb_plan.specs.PathSteps.{plan_costs};
ghost use Rattle.sb_plan.specs.Plans.{plan_value};
ghost use Rattle.sb_plan.specs.Runners.{AreStores, batch_by, online_add, online_monoid, online_valid, plus_at, valid_at};
ghost use Rattle.sb_plan.specs.Steps.{record_steps, steps_by};
ghost use Rattle.sb_service.specs.Views.{view_service};
ghost use Rattle.sb_types.specs.ValView.{value_of};

use crate::parts::{Entry, add_part};
use crate::plan::Plan;
use crate::stores::Stores;
use sb_batcher::Batcher;
use sb_check::Online;
use sb_feed::KeyBytes;
use sb_kind::{Agg, OnlineM};
use sb_laws::Steps;
use sb_service::Service;
use sb_text::{NoMemory, Text};
use sb_types::{LogRecord, Val};
use std::alloc::Global;
use std::sync::ledger::Ledger;

/// The records of a log, each in its batch and with the sum of what it adds to each key.
pub fn entries<L: Ledger>(
    alloc: Global,
    o: &Online,
    plan: &Plan<'_>,
    stores: &Stores<OnlineM>,
    records: &[LogRecord],
    services: &[Service],
    steps: &mut Steps<L>,
) -> Result<Vec<Entry<Agg>>, NoMemory>
    requires plan { plan_value plan.now ≡ planned (online_of o.now) }
    requires stores { AreStores (online_of o.now) online_monoid stores.now }
    requires within { are_in_batches (online_of o.now).batching (map logged_of records.now) ≡ true }
    ensures value { IfOk result (λ entries. map entry_record entries.items
        ≡ map (record_in (online_of o.now) (map view_service services.now))
        (map logged_of records.now)) }
    ensures fed { IfOk result (λ _. AllByRecursion
        (IsFed (online_of o.now) (map view_service services.now)) (map logged_of records.now)) }
    ensures records { IfOk result (λ entries. AllByRecursion (IsRecord
        (meant online_valid online_add stores.now.monoids)) (map entry_record entries.items)) }
    ensures steps { OnOk result (steps.new ≡ steps.old + sum_by (record_steps
        (plan_costs plan.now) (map view_service services.now)) (map logged_of records.now)) }
{
    let mut entries = Vec::with_capacity(alloc, records.len())?;
    for logged in records {
        entries.push(entry(alloc, o, plan, stores, logged, services, steps)?)?;
    }
    Ok(entries)
}

fn entry<L: Ledger>(
    alloc: Global,
    o: &Online,
    plan: &Plan<'_>,
    stores: &Stores<OnlineM>,
    logged: &LogRecord,
    services: &[Service],
    steps: &mut Steps<L>,
) -> Result<Entry<Agg>, NoMemory>
    requires plan { plan_value plan.now ≡ planned (online_of o.now) }
    requires stores { AreStores (online_of o.now) online_monoid stores.now }
    requires within { is_batch (batch_of (online_of o.now).batching logged.now.time) ≡ true }
    ensures value { IfOk result (λ entry. entry_record entry
        ≡ record_in (online_of o.now) (map view_service services.now) (logged_of logged.now)) }
    ensures fed { IfOk result (λ _. IsFed (online_of o.now) (map view_service services.now)
        (logged_of logged.now)) }
    ensures good { IfOk result (λ entry. IsRecord
        (meant online_valid online_add stores.now.monoids) (entry_record entry)) }
    ensures steps { OnOk result (steps.new ≡ steps.old + record_steps (plan_costs plan.now)
        (map view_service services.now) (logged_of logged.now)) }
{
    let lets = plan.let_values(alloc, logged, services, steps)?;
    let mut parts = Vec::new(alloc);
    add_stores(
        alloc, o, plan, stores, logged, services, &lets, &mut parts, steps,
    )?;
    Ok(Entry {
        batch: batch_in(o, logged),
        parts,
    })
}

// No record of a log has a time before that of batch 0.
fn batch_in(o: &Online, logged: &LogRecord) -> u64
    ensures { result ≡ batch_by (online_of o.now).batching (logged_of logged.now) }
{
    batch_of(o.checked().batcher(), logged)
}

fn batch_of(batcher: &Batcher, logged: &LogRecord) -> u64
    ensures { result ≡ batch_by batcher.now (logged_of logged.now) }
{
    batcher.batch_of(logged.time).unwrap_or(0)
}

// Adds what a record feeds to each store, store by store.
fn add_stores<L: Ledger>(
    alloc: Global,
    o: &Online,
    plan: &Plan<'_>,
    stores: &Stores<OnlineM>,
    logged: &LogRecord,
    services: &[Service],
    lets: &[Vec<Val>],
    parts: &mut Vec<(KeyBytes, Agg)>,
    steps: &mut Steps<L>,
) -> Result<(), NoMemory>
    requires plan { plan_value plan.now ≡ planned (online_of o.now) }
    requires stores { AreStores (online_of o.now) online_monoid stores.now }
    requires lets { map (λ l. map value_of l.items) lets.now
        ≡ let_values (planned (online_of o.now)) (logged_of logged.now)
        (map view_service services.now) }
    requires none { parts.old.items ≡ [] }
    ensures value { OnOk result (parts.new.items ≡ parts_below (plus_at (online_of o.now))
        (λ store. fed_at (planned (online_of o.now)) (map view_service services.now) store
        (logged_of logged.now)) (length (planned (online_of o.now)).stores)) }
    ensures fed { OnOk result (IsFed (online_of o.now) (map view_service services.now)
        (logged_of logged.now)) }
    ensures valid { OnOk result (AreValid (meant online_valid online_add stores.now.monoids)
        parts.new.items) }
    ensures steps { OnOk result (steps.new ≡ steps.old + sum_by (λ store. store
        (logged_of logged.now) (map view_service services.now)
        (map (λ l. map value_of l.items) lets.now)) (plan_costs plan.now).stores) }
{
    for store in 0..stores.len() {
        add_store(
            alloc, o, plan, stores, logged, services, lets, store, parts, steps,
        )?;
    }
    Ok(())
}

fn add_store<L: Ledger>(
    alloc: Global,
    o: &Online,
    plan: &Plan<'_>,
    stores: &Stores<OnlineM>,
    logged: &LogRecord,
    services: &[Service],
    lets: &[Vec<Val>],
    store: u32,
    parts: &mut Vec<(KeyBytes, Agg)>,
    steps: &mut Steps<L>,
) -> Result<(), NoMemory>
    requires plan { plan_value plan.now ≡ planned (online_of o.now) }
    requires stores { AreStores (online_of o.now) online_monoid stores.now }
    requires lets { map (λ l. map value_of l.items) lets.now
        ≡ let_values (planned (online_of o.now)) (logged_of logged.now)
        (map view_service services.now) }
    requires store { store < length stores.now.monoids }
    requires rising { IsTrue (is_sorted key_order parts.old.items) }
    requires valid { AreValid (meant online_valid online_add stores.now.monoids) parts.old.items }
    ensures value { OnOk result (parts.new.items ≡ with_fed (plus_at (online_of o.now) store) store
        (fed_at (planned (online_of o.now)) (map view_service services.now) store
        (logged_of logged.now)) parts.old.items) }
    ensures fed { OnOk result (AllByRecursion (λ x. valid_at (online_of o.now) store x.1)
        (fed_at (planned (online_of o.now)) (map view_service services.now) store
        (logged_of logged.now))) }
    ensures valid { OnOk result (AreValid (meant online_valid online_add stores.now.monoids)
        parts.new.items) }
    ensures steps { OnOk result (steps.new ≡ steps.old
        + steps_by (slice_get (plan_costs plan.now).stores store) (logged_of logged.now)
        (map view_service services.now) (map (λ l. map value_of l.items) lets.now)) }
{
    let mut fed = Vec::new(alloc);
    plan.feed(alloc, logged, services, lets, store, &mut fed, steps)?;
    add_fed(alloc, stores, store, fed, parts)
}

// Adds what is fed to a store, each value on the right of those before it.
fn add_fed(
    alloc: Global,
    stores: &Stores<OnlineM>,
    store: u32,
    fed: Vec<(Text, Agg)>,
    parts: &mut Vec<(KeyBytes, Agg)>,
) -> Result<(), NoMemory>
    requires store { store < length stores.now.monoids }
    requires values { AllByRecursion
        (λ x. valid_by online_valid (slice_get stores.now.monoids store) x.1) fed.items }
    requires rising { IsTrue (is_sorted key_order parts.old.items) }
    requires valid { AreValid (meant online_valid online_add stores.now.monoids) parts.old.items }
    ensures value { OnOk result (parts.new.items
        ≡ with_fed (add_by online_add (slice_get stores.now.monoids store)) store fed.items
        parts.old.items) }
    ensures valid { OnOk result (AreValid (meant online_valid online_add stores.now.monoids)
        parts.new.items) }
{
    let m = stores.monoid(store);
    for (text, value) in fed {
        add_part(alloc, m, parts, (KeyBytes { store, text }, value))?;
    }
    Ok(())
}
