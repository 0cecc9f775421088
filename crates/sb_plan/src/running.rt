//! Values on their way through the stages of a path.
ghost use Rattle.std.specs.Prelude.{◌≡◌, [], ◌∷◌, ◌+◌, ◌++◌, map, IfSome, IsUtf8, OnOk};
ghost use Rattle.std.specs.List.{AllByRecursion, flat_map, sum_by};
ghost use Rattle.sb_check.specs.Log.{logged_of};
ghost use Rattle.sb_meaning.specs.Expression.{ev};
ghost use Rattle.sb_meaning.specs.Its.{it_value};
ghost use Rattle.sb_meaning.specs.Operations as spec;
ghost use Rattle.sb_meaning.specs.Words.{words_of};
ghost use Rattle.sb_meaning.specs.Streams.{list_at};
ghost use Rattle.sb_plan.specs.Paths.{chain_gives, gives, path_gives, root_gives};
ghost use Rattle.sb_plan.specs.PathSteps.{paths_cost, run_steps, steps_behind};
ghost use Rattle.sb_service.specs.Views.{view_service};
ghost use Rattle.sb_types.specs.Value.{Value, text};
ghost use Rattle.sb_types.specs.ValView.{value_of};

use crate::making::Maker;
use crate::paths::{Path, Root, Stage};
use sb_laws::{NoMemory, Steps};
use sb_meaning::{It, Words, bytes_in, elements_of, is_true, join, lent, value, word};
use sb_service::Service;
use sb_terms::{Single, Term};
use sb_types::{LogRecord, Val};
use std::alloc::Global;
use std::sync::ledger::Ledger;

/// Takes a value through the stages, and appends what is made of each value that comes out. A stage that lends or drops
/// its value copies nothing, and the words of a text and the parts of a list in brackets are taken one by one. A stage
/// that evaluates its expression ticks once, whatever the expression gives, and a join not at all. A refusal leaves some of
/// the values behind.
#[cycle(run)]
pub fn run<M: Maker, L: Ledger>(
    alloc: Global,
    stages: &[Stage<'_>],
    services: &[Service],
    it: It<'_>,
    maker: &M,
    out: &mut Vec<M::Made>,
    steps: &mut Steps<L>,
) -> Result<(), NoMemory>
    ensures made { OnOk result (out.new.items ≡ out.old.items ++ map (M.made maker.now)
        (chain_gives (map view_service services.now) stages.now (it_value it.entry))) }
    ensures good { OnOk result (AllByRecursion (M.good maker.now) out.old.items
        → AllByRecursion (M.good maker.now) out.new.items) }
    ensures steps { OnOk result (steps.new ≡ steps.old + run_steps (M.takes maker.now)
        (map view_service services.now) stages.now (it_value it.entry)) }
{
    let Some((stage, rest)) = stages.split_first() else {
        return push_made(alloc, it, maker, out, steps);
    };
    match *stage {
        Stage::Map(by) => {
            steps.tick();
            run_mapped(alloc, by, rest, services, it, maker, out, steps)
        }
        Stage::Filter(by) => {
            steps.tick();
            if is_true(alloc, by, it)? {
                run(alloc, rest, services, it, maker, out, steps)
            } else {
                Ok(())
            }
        }
        Stage::FlatMap(by) => {
            steps.tick();
            run_elements(alloc, by, rest, services, it, maker, out, steps)
        }
        Stage::Join(number) => {
            let joined = join(alloc, number, services, it.copied(alloc)?)?;
            run(alloc, rest, services, It::Value(&joined), maker, out, steps)
        }
    }
}

fn push_made<M: Maker, L: Ledger>(
    alloc: Global,
    it: It<'_>,
    maker: &M,
    out: &mut Vec<M::Made>,
    steps: &mut Steps<L>,
) -> Result<(), NoMemory>
    ensures made { OnOk result (out.new.items
        ≡ out.old.items ++ map (M.made maker.now) (it_value it.entry ∷ [])) }
    ensures good { OnOk result (AllByRecursion (M.good maker.now) out.old.items
        → AllByRecursion (M.good maker.now) out.new.items) }
    ensures steps { OnOk result (steps.new ≡ steps.old + M.takes maker.now) }
{
    out.push(maker.make(alloc, it, steps)?)?;
    Ok(())
}

// Takes the value of an expression through the stages.
#[cycle(run)]
fn run_mapped<M: Maker, L: Ledger>(
    alloc: Global,
    by: &Term,
    stages: &[Stage<'_>],
    services: &[Service],
    it: It<'_>,
    maker: &M,
    out: &mut Vec<M::Made>,
    steps: &mut Steps<L>,
) -> Result<(), NoMemory>
    ensures made { OnOk result (out.new.items ≡ out.old.items ++ map (M.made maker.now)
        (chain_gives (map view_service services.now) stages.now (ev by.now (it_value it.entry)))) }
    ensures good { OnOk result (AllByRecursion (M.good maker.now) out.old.items
        → AllByRecursion (M.good maker.now) out.new.items) }
    ensures steps { OnOk result (steps.new ≡ steps.old + run_steps (M.takes maker.now)
        (map view_service services.now) stages.now (ev by.now (it_value it.entry))) }
{
    if let Some(value) = lent(by, it) {
        return run(alloc, stages, services, It::Value(value), maker, out, steps);
    }
    let value = value(alloc, by, it)?;
    run(
        alloc,
        stages,
        services,
        It::Value(&value),
        maker,
        out,
        steps,
    )
}

// Takes the elements of a list that an expression gives through the stages.
#[cycle(run)]
fn run_elements<M: Maker, L: Ledger>(
    alloc: Global,
    by: &Term,
    stages: &[Stage<'_>],
    services: &[Service],
    it: It<'_>,
    maker: &M,
    out: &mut Vec<M::Made>,
    steps: &mut Steps<L>,
) -> Result<(), NoMemory>
    ensures made { OnOk result (out.new.items ≡ out.old.items ++ map (M.made maker.now)
        (flat_map (chain_gives (map view_service services.now) stages.now)
        (spec.elements_in (ev by.now (it_value it.entry))))) }
    ensures good { OnOk result (AllByRecursion (M.good maker.now) out.old.items
        → AllByRecursion (M.good maker.now) out.new.items) }
    ensures steps { OnOk result (steps.new ≡ steps.old + sum_by (run_steps
        (M.takes maker.now) (map view_service services.now) stages.now)
        (spec.elements_in (ev by.now (it_value it.entry)))) }
{
    if let Some((most, part)) = words_in(by) {
        return run_words(alloc, most, part, stages, services, it, maker, out, steps);
    }
    match by {
        Term::List(parts) => {
            run_parts(
                alloc,
                parts.as_slice(),
                stages,
                services,
                it,
                maker,
                out,
                steps,
            )
        }
        by => {
            let list = value(alloc, by, it)?;
            run_all(
                alloc,
                elements_of(&list),
                stages,
                services,
                maker,
                out,
                steps,
            )
        }
    }
}

// The greatest number of words and the text, where the expression gives the words of a text.
fn words_in<'a>(by: &'a Term) -> Option<(u64, &'a Term)>
    ensures { IfSome result (λ words. (v : Value) → spec.elements_in (ev by.now v)
        ≡ map text (words_of words.0 (spec.bytes_in (ev words.1.now v)))) }
{
    match by {
        Term::One(op, part) => match *op {
            Single::Words(most) => Some((most, part.get())),
            _ => None,
        },
        _ => None,
    }
}

// Takes the words of a text that an expression gives through the stages.
#[cycle(run)]
fn run_words<M: Maker, L: Ledger>(
    alloc: Global,
    most: u64,
    by: &Term,
    stages: &[Stage<'_>],
    services: &[Service],
    it: It<'_>,
    maker: &M,
    out: &mut Vec<M::Made>,
    steps: &mut Steps<L>,
) -> Result<(), NoMemory>
    ensures made { OnOk result (out.new.items ≡ out.old.items ++ map (M.made maker.now)
        (flat_map (chain_gives (map view_service services.now) stages.now)
        (map text (words_of most (spec.bytes_in (ev by.now (it_value it.entry))))))) }
    ensures good { OnOk result (AllByRecursion (M.good maker.now) out.old.items
        → AllByRecursion (M.good maker.now) out.new.items) }
    ensures steps { OnOk result (steps.new ≡ steps.old + sum_by (run_steps
        (M.takes maker.now) (map view_service services.now) stages.now)
        (map text (words_of most (spec.bytes_in (ev by.now (it_value it.entry)))))) }
{
    if let Some(text) = lent(by, it) {
        return run_words_in(
            alloc,
            most,
            bytes_in(text),
            stages,
            services,
            maker,
            out,
            steps,
        );
    }
    let text = value(alloc, by, it)?;
    run_words_in(
        alloc,
        most,
        bytes_in(&text),
        stages,
        services,
        maker,
        out,
        steps,
    )
}

#[cycle(run)]
fn run_words_in<M: Maker, L: Ledger>(
    alloc: Global,
    most: u64,
    bytes: &[u8],
    stages: &[Stage<'_>],
    services: &[Service],
    maker: &M,
    out: &mut Vec<M::Made>,
    steps: &mut Steps<L>,
) -> Result<(), NoMemory>
    requires { IsUtf8 bytes.now }
    ensures made { OnOk result (out.new.items ≡ out.old.items ++ map (M.made maker.now)
        (flat_map (chain_gives (map view_service services.now) stages.now)
        (map text (words_of most bytes.now)))) }
    ensures good { OnOk result (AllByRecursion (M.good maker.now) out.old.items
        → AllByRecursion (M.good maker.now) out.new.items) }
    ensures steps { OnOk result (steps.new ≡ steps.old + sum_by (run_steps
        (M.takes maker.now) (map view_service services.now) stages.now)
        (map text (words_of most bytes.now))) }
{
    let mut words = Words::new(most, bytes);
    while let Some(bytes) = words.next_word() {
        let word = word(alloc, bytes)?;
        run(alloc, stages, services, It::Value(&word), maker, out, steps)?;
    }
    Ok(())
}

// Takes the value of each expression through the stages.
#[cycle(run)]
fn run_parts<M: Maker, L: Ledger>(
    alloc: Global,
    parts: &[Term],
    stages: &[Stage<'_>],
    services: &[Service],
    it: It<'_>,
    maker: &M,
    out: &mut Vec<M::Made>,
    steps: &mut Steps<L>,
) -> Result<(), NoMemory>
    ensures made { OnOk result (out.new.items ≡ out.old.items ++ map (M.made maker.now)
        (flat_map (chain_gives (map view_service services.now) stages.now)
        (map (λ e. ev e (it_value it.entry)) parts.now))) }
    ensures good { OnOk result (AllByRecursion (M.good maker.now) out.old.items
        → AllByRecursion (M.good maker.now) out.new.items) }
    ensures steps { OnOk result (steps.new ≡ steps.old + sum_by (run_steps
        (M.takes maker.now) (map view_service services.now) stages.now)
        (map (λ e. ev e (it_value it.entry)) parts.now)) }
{
    for part in parts {
        run_mapped(alloc, part, stages, services, it, maker, out, steps)?;
    }
    Ok(())
}

// Takes each value through the stages.
#[cycle(run)]
fn run_all<M: Maker, L: Ledger>(
    alloc: Global,
    values: &[Val],
    stages: &[Stage<'_>],
    services: &[Service],
    maker: &M,
    out: &mut Vec<M::Made>,
    steps: &mut Steps<L>,
) -> Result<(), NoMemory>
    ensures made { OnOk result (out.new.items ≡ out.old.items ++ map (M.made maker.now)
        (flat_map (chain_gives (map view_service services.now) stages.now)
        (map value_of values.now))) }
    ensures good { OnOk result (AllByRecursion (M.good maker.now) out.old.items
        → AllByRecursion (M.good maker.now) out.new.items) }
    ensures steps { OnOk result (steps.new ≡ steps.old + sum_by (run_steps
        (M.takes maker.now) (map view_service services.now) stages.now)
        (map value_of values.now)) }
{
    for value in values {
        run(alloc, stages, services, It::Value(value), maker, out, steps)?;
    }
    Ok(())
}

/// Takes what each path has of a record at its root through its stages, path by path.
pub fn run_paths<M: Maker, L: Ledger>(
    alloc: Global,
    paths: &[Path<'_>],
    logged: &LogRecord,
    services: &[Service],
    lets: &[Vec<Val>],
    maker: &M,
    out: &mut Vec<M::Made>,
    steps: &mut Steps<L>,
) -> Result<(), NoMemory>
    ensures made { OnOk result (out.new.items ≡ out.old.items ++ map (M.made maker.now)
        (gives paths.now (logged_of logged.now) (map view_service services.now)
        (map (λ l. map value_of l.items) lets.now))) }
    ensures good { OnOk result (AllByRecursion (M.good maker.now) out.old.items
        → AllByRecursion (M.good maker.now) out.new.items) }
    ensures steps { OnOk result (steps.new ≡ steps.old
        + steps_behind (M.takes maker.now) (paths_cost paths.now) (logged_of logged.now)
        (map view_service services.now) (map (λ l. map value_of l.items) lets.now)) }
{
    for path in paths {
        run_path(alloc, path, logged, services, lets, maker, out, steps)?;
    }
    Ok(())
}

fn run_path<M: Maker, L: Ledger>(
    alloc: Global,
    path: &Path<'_>,
    logged: &LogRecord,
    services: &[Service],
    lets: &[Vec<Val>],
    maker: &M,
    out: &mut Vec<M::Made>,
    steps: &mut Steps<L>,
) -> Result<(), NoMemory>
    ensures made { OnOk result (out.new.items ≡ out.old.items ++ map (M.made maker.now)
        (path_gives (logged_of logged.now) (map view_service services.now)
        (map (λ l. map value_of l.items) lets.now) path.now)) }
    ensures good { OnOk result (AllByRecursion (M.good maker.now) out.old.items
        → AllByRecursion (M.good maker.now) out.new.items) }
    ensures steps { OnOk result (steps.new ≡ steps.old + sum_by (run_steps (M.takes maker.now)
        (map view_service services.now) path.now.stages.items)
        (root_gives (logged_of logged.now) (map (λ l. map value_of l.items) lets.now)
        path.now.root)) }
{
    match path.root {
        Root::Source(number) => {
            if u64::from(logged.source) != number {
                return Ok(());
            }
            let it = It::Fields(&logged.fields);
            run(alloc, &path.stages, services, it, maker, out, steps)
        }
        Root::Let(number) => {
            let values = let_at(lets, number);
            run_all(alloc, values, &path.stages, services, maker, out, steps)
        }
    }
}

// What the let of this number gives.
fn let_at(lets: &[Vec<Val>], number: u64) -> &[Val]
    ensures { map value_of result.now ≡ list_at number (map (λ l. map value_of l.items) lets.now) }
{
    match sqlite_items::at(lets, number as usize) {
        Some(values) => values.as_slice(),
        None => &[],
    }
}
