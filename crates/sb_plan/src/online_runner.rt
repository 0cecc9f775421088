//! The stores of a program over the records of a log, as a feed.
ghost use Rattle.sb_check.specs.Log.{HavePlaces};
ghost use Rattle.std.specs.Prelude.{◌≡◌, ◌<◌, ◌≤◌, ◌+◌, ◌*◌, ◌++◌, true, length, map, slice_index_or, take, IfOk, OnOk};
ghost use Rattle.std.specs.List.{AllByRecursion, sum_by};
ghost use Rattle.sb_check.specs.Admission.{all_commute};
ghost use Rattle.sb_check.specs.Declarations.{store_of};
ghost use Rattle.sb_check.specs.LogView.{view_log};
ghost use Rattle.sb_check.specs.OnlineView.{online_of};
ghost use Rattle.sb_feed.specs.Feeds.{parts_of};
ghost use Rattle.sb_feed.specs.Limits.{last_batch};
ghost use Rattle.sb_kind.specs.KindView.{monoid_of};
ghost use Rattle.sb_kind.specs.Monoids.{commutes};
ghost use Rattle.sb_meaning.specs.Emissions.{logged_in};
ghost use Rattle.sb_plan.specs.Bounds.{IsLogWithin};
ghost use Rattle.sb_plan.specs.Entries.{entry_record};
ghost use Rattle.sb_plan.specs.Runners.{Runs, online_monoid};
ghost use Rattle.sb_plan.specs.Steps.{costs_of, record_steps};
ghost use Rattle.sb_service.specs.Views.{view_service};

use crate::emitting::entries;
use crate::parts::Entry;
use crate::plan::plan_of;
use crate::stores::Stores;
use sb_check::{Log, Online, StoreDecl};
use sb_feed::{BatchIndex, Family, Feed, KeyBytes, Part, Printed};
use sb_kind::{Agg, Kind, OnlineM, copy, text};
use sb_laws::{Key, Steps};
use sb_meaning::copy_kind;
use sb_service::Service;
use sb_text::{NoMemory, Text};
use std::alloc::{AllocError, Global};
use std::marker::{Brand, Model};
use std::sync::ledger::{Blank, Ledger};

/// An admitted program over a log: its stores, each record with its batch and the sum of what it adds to each key, and
/// the positions of each batch's records.
#[derive(Drop)]
pub struct OnlineRunner {
    stores: Stores<OnlineM>,
    entries: Vec<Entry<Agg>>,
    index: BatchIndex,
}

impl Model for OnlineRunner {
    ghost use Rattle.std.specs.Prelude.{map};
    ghost use Rattle.sb_plan.specs.Entries.{entry_record};
    ghost use Rattle.sb_plan.specs.Runners.{AreIndexed, RunnerValue};
    ghost use Rattle.std.specs.Coded.{codes};
    ghost use Rattle.sb_kind.specs.contracts.agg.Agg as agg;
    ghost use Rattle.sb_kind.specs.contracts.kind.Kind as kind;

    ghost Value = { RunnerValue };

    ghost coded = { Prim.hlevel (codes, agg.the_row.coded, kind.the_row.coded) };

    ghost view = { λ r. record { stores = r.stores; records = map entry_record r.entries.items } };

    ghost invariant = { λ r. AreIndexed r.stores.monoids r.index (map entry_record r.entries.items) };
}

impl OnlineRunner {
    /// What the records of a log add to the stores of a program that is admitted. The log has the program's batches, and
    /// each record the number of its line, from 0.
    pub fn new(
        alloc: Global,
        o: &Online,
        log: &Log,
        services: &[Service],
    ) -> Result<OnlineRunner, NoMemory>
        requires batching { (view_log log.now).batching ≡ (online_of o.now).batching }
        requires placed { HavePlaces 0 (logged_in log.now) }
        ensures { IfOk result (Runs (online_of o.now) (logged_in log.now)
            (map view_service services.now)) }
    {
        OnlineRunner::new_from::<Brand>(alloc, o, log, services, Blank::new(1))
    }

    fn new_from<L: Ledger>(
        alloc: Global,
        o: &Online,
        log: &Log,
        services: &[Service],
        blank: Blank,
    ) -> Result<OnlineRunner, NoMemory>
        requires batching { (view_log log.now).batching ≡ (online_of o.now).batching }
        requires placed { HavePlaces 0 (logged_in log.now) }
        requires name { blank.name ≡ L.name }
        requires parts { (blank.parts ≡ L.parts) × (0 < blank.parts) }
        ensures { IfOk result (Runs (online_of o.now) (logged_in log.now)
            (map view_service services.now)) }
    {
        let (book, share) = blank.open::<L>();
        let mut steps = Steps::new(book, share);
        OnlineRunner::new_counted(alloc, o, log, services, &mut steps)
    }

    /// What `new` makes, and the steps of each record of the log. Where the program is checked as its text says, and the
    /// records and rows are of the types that it declares, these are for each record within the text's bound.
    pub fn new_counted<L: Ledger>(
        alloc: Global,
        o: &Online,
        log: &Log,
        services: &[Service],
        steps: &mut Steps<L>,
    ) -> Result<OnlineRunner, NoMemory>
        requires batching { (view_log log.now).batching ≡ (online_of o.now).batching }
        requires placed { HavePlaces 0 (logged_in log.now) }
        ensures runs { IfOk result (Runs (online_of o.now) (logged_in log.now)
            (map view_service services.now)) }
        ensures steps { OnOk result (steps.new ≡ steps.old + sum_by (record_steps
            (costs_of (online_of o.now)) (map view_service services.now)) (logged_in log.now)) }
        ensures within { OnOk result (IsLogWithin (online_of o.now)
            (map view_service services.now) (logged_in log.now) steps.old steps.new) }
    {
        let c = o.checked();
        let stores = Stores::new(dictionaries(alloc, c.stores())?)?;
        let plan = plan_of(alloc, c)?;
        let entries = entries(alloc, o, &plan, &stores, log.records(), services, steps)?;
        let index = index_of(alloc, &entries)?;
        Ok(OnlineRunner {
            stores,
            entries,
            index,
        })
    }

    fn entry(&self, i: u64) -> &Entry<Agg>
        requires { i < length self.now.records }
        ensures place { entry_record result.now
            ≡ slice_index_or self.now.records i (entry_record result.now) }
        ensures limit { result.now.batch ≤ last_batch }
    {
        &self.entries[i as usize]
    }
}

fn index_of(alloc: Global, entries: &[Entry<Agg>]) -> Result<BatchIndex, NoMemory>
    requires { AllByRecursion (λ r. r.batch ≤ last_batch) (map entry_record entries.now) }
    ensures { IfOk result (λ index. index ≡ map (λ r. r.batch) (map entry_record entries.now)) }
{
    let mut index = BatchIndex::new(alloc);
    for entry in entries {
        index.push(entry.batch)?;
    }
    Ok(index)
}

fn dictionaries(alloc: Global, stores: &[StoreDecl]) -> Result<Vec<(Text, OnlineM)>, NoMemory>
    requires { all_commute (map store_of stores.now) ≡ true }
    ensures names { IfOk result (λ out. map (λ store. store.0) out.items
        ≡ map (λ s. s.name) (map store_of stores.now)) }
    ensures monoids { IfOk result (λ out. map online_monoid (map (λ store. store.1) out.items)
        ≡ map (λ s. s.monoid) (map store_of stores.now)) }
{
    let mut out = Vec::with_capacity(alloc, stores.len())?;
    for store in stores {
        let name = store.name.copy(alloc)?;
        out.push((name, dictionary(alloc, &store.kind)?))?;
    }
    Ok(out)
}

// A store of an admitted program commutes.
fn dictionary(alloc: Global, kind: &Kind) -> Result<OnlineM, NoMemory>
    requires { commutes (monoid_of kind.now) ≡ true }
    ensures { IfOk result (λ m. online_monoid m ≡ monoid_of kind.now) }
{
    match OnlineM::new(copy_kind(alloc, kind)?) {
        Some(m) => Ok(m),
        None => unreachable!(),
    }
}

impl Family for OnlineRunner {
    type M = OnlineM;

    ghost monoids = { λ r. r.stores.monoids };

    fn stores(&self) -> u32 {
        self.stores.len()
    }

    fn monoid(&self, store: u32) -> &OnlineM {
        self.stores.monoid(store)
    }
}

impl Printed for OnlineRunner {
    ghost use Rattle.sb_kind.specs.ElementText.{element_text};
    ghost use Rattle.sb_plan.specs.Runners.{name_at};

    ghost name = { λ r. name_at r.stores.names };

    ghost printed = { λ _ _ value. element_text value };

    fn name(&self, store: u32) -> &Text {
        self.stores.name(store)
    }

    fn print(
        &self,
        alloc: Global,
        store: u32,
        value: &Agg,
        out: &mut Vec<u8>,
    ) -> Result<(), NoMemory> {
        text(alloc, &self.stores.monoid(store).kind, value, out)
    }
}

impl Feed for OnlineRunner {
    ghost records = { λ r. r.records };

    fn len(&self) -> u64 {
        self.entries.len() as u64
    }

    fn batch(&self, i: u64) -> u64 {
        self.entry(i).batch
    }

    fn positions(&self, batch: u64) -> &[u64] {
        self.index.positions(batch)
    }

    fn emit(&self, alloc: Global, i: u64, out: &mut Vec<Part<Agg>>) -> Result<(), NoMemory> {
        let before = out.len();
        match push_parts(alloc, self.entry(i), out) {
            Ok(()) => Ok(()),
            Err(refused) => {
                out.truncate(before);
                Err(refused)
            }
        }
    }
}

// Stops in the middle where it finds no memory; what stood before is there still.
fn push_parts(alloc: Global, entry: &Entry<Agg>, out: &mut Vec<Part<Agg>>) -> Result<(), NoMemory>
    ensures ok { OnOk result (out.new.items ≡ out.old.items ++ parts_of (entry_record entry.now)) }
    ensures front { take (length out.old.items) out.new.items ≡ out.old.items }
{
    for part in entry.parts.as_slice() {
        out.push(copy_part(alloc, entry.batch, part)?)?;
    }
    Ok(())
}

fn copy_part(alloc: Global, batch: u64, part: &(KeyBytes, Agg)) -> Result<Part<Agg>, NoMemory>
    ensures { IfOk result (λ copied. copied
        ≡ record { key = part.now.0; batch = batch; value = part.now.1 }) }
{
    let key = part.0.copy(alloc)?;
    let value = copy(alloc, &part.1)?;
    Ok(Part { key, batch, value })
}
