//! The plan of a program: what its streams do with a record, one record at a time.
ghost use Rattle.std.specs.Prelude.{◌≡◌, ◌<◌, ◌+◌, ◌++◌, [], map, length, slice_get, IfOk, IfSome, OnOk};
ghost use Rattle.std.specs.List.{AllByRecursion};
ghost use Rattle.sb_check.specs.CheckedView.{checked_of};
ghost use Rattle.sb_check.specs.Declarations.{let_of, store_of};
ghost use Rattle.sb_check.specs.Log.{logged_of};
ghost use Rattle.sb_meaning.specs.Expression.{ev};
ghost use Rattle.sb_plan.specs.Given.{fed_by, feeding_of, given, let_values, planned};
ghost use Rattle.sb_plan.specs.Bounds.{AreWithin};
ghost use Rattle.sb_plan.specs.PathSteps.{ending_steps, paths_cost, plan_costs, steps_behind, store_steps};
ghost use Rattle.sb_plan.specs.Paths.{gives};
ghost use Rattle.sb_plan.specs.Steps.{costs_of, flow_cost, flow_steps, lets_steps, steps_by};
ghost use Rattle.sb_plan.specs.Plans.{EndsIn, feeding_by, is_fed, plan_value};
ghost use Rattle.sb_service.specs.Views.{view_service};
ghost use Rattle.sb_types.specs.Value.{Value, pair};
ghost use Rattle.sb_types.specs.ValView.{value_of};

use crate::making::{Copier, Ending, Feeder};
use crate::paths::{Path, paths};
use crate::running::run_paths;
use sb_check::{Checked, LetDecl, StoreDecl};
use sb_kind::Agg;
use sb_laws::{NoMemory, Steps};
use sb_service::Service;
use sb_terms::{Double, Flow, Term};
use sb_text::Text;
use sb_types::{LogRecord, Val};
use std::alloc::Global;
use std::sync::ledger::Ledger;

/// How a store is fed: the paths of its stream up to the last stage, and what is made of the values that come out.
#[derive(Drop)]
pub struct StorePlan<'a> {
    pub paths: Vec<Path<'a>>,
    pub feeder: Feeder<'a>,
}

/// What the streams of a program do with a record, after producers as in Summingbird (PVLDB 7(13), 2014). Chains of stages
/// are run value by value, and what a let gives of a record is computed once, however many streams use it.
#[derive(Drop)]
pub struct Plan<'a> {
    lets: Vec<Vec<Path<'a>>>,
    stores: Vec<StorePlan<'a>>,
}

/// The plan of a program, lent from it.
pub fn plan_of<'a>(alloc: Global, c: &'a Checked) -> Result<Plan<'a>, NoMemory>
    ensures value { IfOk result (λ plan. plan_value plan ≡ planned (checked_of c.now)) }
    ensures costs { IfOk result (λ plan. plan_costs plan ≡ costs_of (checked_of c.now)) }
    ensures within { IfOk result (λ plan. AreWithin (plan_costs plan) (checked_of c.now)) }
{
    let lets = plan_lets(alloc, c.lets())?;
    let stores = plan_stores(alloc, c.stores())?;
    Ok(Plan { lets, stores })
}

fn plan_lets<'a>(alloc: Global, lets: &'a [LetDecl]) -> Result<Vec<Vec<Path<'a>>>, NoMemory>
    ensures values { IfOk result (λ plans. map (λ ps. gives ps.items) plans.items
        ≡ map (λ l. given l.stream.flow) (map let_of lets.now)) }
    ensures costs { IfOk result (λ plans. map (λ ps. paths_cost ps.items) plans.items
        ≡ map (λ l. flow_cost l.stream.flow) (map let_of lets.now)) }
{
    let mut plans = Vec::with_capacity(alloc, lets.len())?;
    for bound in lets {
        plans.push(paths(alloc, &bound.stream.flow)?)?;
    }
    Ok(plans)
}

fn plan_stores<'a>(alloc: Global, stores: &'a [StoreDecl]) -> Result<Vec<StorePlan<'a>>, NoMemory>
    ensures values { IfOk result (λ plans. map feeding_by plans.items
        ≡ map feeding_of (map store_of stores.now)) }
    ensures steps { IfOk result (λ plans. map store_steps plans.items
        ≡ map (λ s. flow_steps s.flow) (map store_of stores.now)) }
{
    let mut plans = Vec::with_capacity(alloc, stores.len())?;
    for store in stores {
        plans.push(plan_store(alloc, store)?)?;
    }
    Ok(plans)
}

// A last stage that makes a pair is left to the feeder.
fn plan_store<'a>(alloc: Global, store: &'a StoreDecl) -> Result<StorePlan<'a>, NoMemory>
    ensures value { IfOk result (λ plan. feeding_by plan ≡ feeding_of (store_of store.now)) }
    ensures steps { IfOk result (λ plan. store_steps plan ≡ flow_steps (store_of store.now).flow) }
{
    let (flow, ending) = split_ending(&store.flow);
    let kind = &store.kind;
    Ok(StorePlan {
        paths: paths(alloc, flow)?,
        feeder: Feeder { ending, kind },
    })
}

// The stream up to the last stage, and that stage where it makes a pair; else the whole stream.
fn split_ending<'a>(flow: &'a Flow) -> (&'a Flow, Ending<'a>)
    ensures value { EndsIn flow.now result.0.now result.1 }
    ensures steps { flow_steps flow.now
        ≡ steps_behind (ending_steps result.1) (flow_cost result.0.now) }
{
    match flow {
        Flow::Map(before, by) => match split_pair(by) {
            Some((key, value)) => (before.get(), Ending::Split(key, value)),
            None => (flow, Ending::Pair),
        },
        _ => (flow, Ending::Pair),
    }
}

// The expressions of which this one makes a pair.
fn split_pair<'a>(by: &'a Term) -> Option<(&'a Term, &'a Term)>
    ensures { IfSome result (λ parts. (v : Value)
        → ev by.now v ≡ pair (ev parts.0.now v) (ev parts.1.now v)) }
{
    match by {
        Term::Two(Double::Pair, key, value) => Some((key.get(), value.get())),
        _ => None,
    }
}

impl<'a> Plan<'a> {
    /// What each let gives of a record, and the steps of each let once.
    pub fn let_values<L: Ledger>(
        &self,
        alloc: Global,
        logged: &LogRecord,
        services: &[Service],
        steps: &mut Steps<L>,
    ) -> Result<Vec<Vec<Val>>, NoMemory>
        ensures values { IfOk result (λ lets. map (λ l. map value_of l.items) lets.items
            ≡ let_values (plan_value self.now) (logged_of logged.now)
            (map view_service services.now)) }
        ensures steps { OnOk result (steps.new ≡ steps.old + lets_steps (logged_of logged.now)
            (map view_service services.now) [] (plan_costs self.now).lets) }
    {
        let mut lets = Vec::new(alloc);
        for plan in self.lets.as_slice() {
            let mut values = Vec::new(alloc);
            run_paths(
                alloc,
                plan,
                logged,
                services,
                &lets,
                &Copier,
                &mut values,
                steps,
            )?;
            lets.push(values)?;
        }
        Ok(lets)
    }

    /// Appends what a record feeds to the store of this number, by what the lets give of it: the texts of keys, and elements
    /// of the store's monoid. A refusal leaves some of that behind.
    pub fn feed<L: Ledger>(
        &self,
        alloc: Global,
        logged: &LogRecord,
        services: &[Service],
        lets: &[Vec<Val>],
        store: u32,
        out: &mut Vec<(Text, Agg)>,
        steps: &mut Steps<L>,
    ) -> Result<(), NoMemory>
        requires { store < length (plan_value self.now).stores }
        ensures fed { OnOk result (out.new.items ≡ out.old.items
            ++ fed_by (slice_get (plan_value self.now).stores store) (logged_of logged.now)
            (map view_service services.now) (map (λ l. map value_of l.items) lets.now)) }
        ensures good { OnOk result (AllByRecursion
            (is_fed (slice_get (plan_value self.now).stores store)) out.old.items
            → AllByRecursion (is_fed (slice_get (plan_value self.now).stores store))
            out.new.items) }
        ensures steps { OnOk result (steps.new ≡ steps.old
            + steps_by (slice_get (plan_costs self.now).stores store) (logged_of logged.now)
            (map view_service services.now) (map (λ l. map value_of l.items) lets.now)) }
    {
        let plan = &self.stores[store as usize];
        run_paths(
            alloc,
            &plan.paths,
            logged,
            services,
            lets,
            &plan.feeder,
            out,
            steps,
        )
    }
}
