//! The ways of values through a stream.
ghost use Rattle.std.specs.Prelude.{◌≡◌, ◌++◌, filter, map, IfOk};
ghost use Rattle.std.specs.List.{flat_map};
ghost use Rattle.sb_meaning.specs.Expression.{ev};
ghost use Rattle.sb_meaning.specs.Operations.{elements_in};
ghost use Rattle.sb_meaning.specs.Streams.{is_true, join_with, list_at};
ghost use Rattle.sb_plan.specs.Given.{given};
ghost use Rattle.sb_plan.specs.PathSteps.{paths_cost, paths_steps, stage_steps, steps_behind};
ghost use Rattle.sb_plan.specs.Paths.{gives, root_gives, staged};
ghost use Rattle.sb_plan.specs.Steps.{flow_steps};

use sb_terms::{Flow, Term};
use sb_text::NoMemory;
use std::alloc::Global;

/// What is done with each value of a stream.
#[derive(Clone, Copy)]
pub enum Stage<'a> {
    Map(&'a Term),
    Filter(&'a Term),
    FlatMap(&'a Term),
    /// Each pair with what the service of this number has at its key.
    Join(u64),
}

/// Where values come from: the records of a source, or what a let gives, by their numbers.
#[derive(Clone, Copy)]
pub enum Root {
    Source(u64),
    Let(u64),
}

/// One way of values through a stream: where they come from, and then stage after stage.
#[derive(Drop)]
pub struct Path<'a> {
    pub root: Root,
    pub stages: Vec<Stage<'a>>,
}

/// The paths of a stream. A merge has those of its left side before those of its right one.
pub fn paths<'a>(alloc: Global, flow: &'a Flow) -> Result<Vec<Path<'a>>, NoMemory>
    ensures values { IfOk result (λ paths. gives paths.items ≡ given flow.now) }
    ensures steps { IfOk result (λ paths. paths_steps paths.items ≡ flow_steps flow.now) }
{
    match flow {
        Flow::Source(number) => path_from(alloc, Root::Source(*number)),
        Flow::Let(number) => path_from(alloc, Root::Let(*number)),
        Flow::Merge(left, right) => {
            let left = paths(alloc, left.get())?;
            let right = paths(alloc, right.get())?;
            both(left, right)
        }
        Flow::Map(before, by) => mapped(alloc, paths(alloc, before.get())?, by),
        Flow::Filter(before, by) => filtered(alloc, paths(alloc, before.get())?, by),
        Flow::FlatMap(before, by) => flat_mapped(alloc, paths(alloc, before.get())?, by),
        Flow::Join(before, number) => joined(alloc, paths(alloc, before.get())?, *number),
    }
}

fn mapped<'a>(alloc: Global, before: Vec<Path<'a>>, by: &'a Term) -> Result<Vec<Path<'a>>, NoMemory>
    ensures values { IfOk result (λ paths. gives paths.items
        ≡ λ r services lets. map (ev by.now) (gives before.entry.items r services lets)) }
    ensures steps { IfOk result (λ paths. paths_steps paths.items
        ≡ steps_behind 1 (paths_cost before.entry.items)) }
{
    staged(alloc, before, Stage::Map(by))
}

fn filtered<'a>(
    alloc: Global,
    before: Vec<Path<'a>>,
    by: &'a Term,
) -> Result<Vec<Path<'a>>, NoMemory>
    ensures values { IfOk result (λ paths. gives paths.items
        ≡ λ r services lets. filter (is_true by.now) (gives before.entry.items r services lets)) }
    ensures steps { IfOk result (λ paths. paths_steps paths.items
        ≡ steps_behind 1 (paths_cost before.entry.items)) }
{
    staged(alloc, before, Stage::Filter(by))
}

fn flat_mapped<'a>(
    alloc: Global,
    before: Vec<Path<'a>>,
    by: &'a Term,
) -> Result<Vec<Path<'a>>, NoMemory>
    ensures values { IfOk result (λ paths. gives paths.items ≡ λ r services lets.
        flat_map (λ v. elements_in (ev by.now v)) (gives before.entry.items r services lets)) }
    ensures steps { IfOk result (λ paths. paths_steps paths.items
        ≡ steps_behind 1 (paths_cost before.entry.items)) }
{
    staged(alloc, before, Stage::FlatMap(by))
}

fn joined<'a>(alloc: Global, before: Vec<Path<'a>>, number: u64) -> Result<Vec<Path<'a>>, NoMemory>
    ensures values { IfOk result (λ paths. gives paths.items ≡ λ r services lets.
        map (join_with (list_at number services)) (gives before.entry.items r services lets)) }
    ensures steps { IfOk result (λ paths. paths_steps paths.items
        ≡ steps_behind 0 (paths_cost before.entry.items)) }
{
    staged(alloc, before, Stage::Join(number))
}

fn path_from<'a>(alloc: Global, root: Root) -> Result<Vec<Path<'a>>, NoMemory>
    ensures values { IfOk result (λ paths. gives paths.items
        ≡ λ r services lets. root_gives r lets root) }
    ensures steps { IfOk result (λ paths. paths_steps paths.items ≡ λ r services lets. 0) }
{
    let mut paths = Vec::with_capacity(alloc, 1)?;
    paths.push(Path {
        root,
        stages: Vec::new(alloc),
    })?;
    Ok(paths)
}

fn both<'a>(left: Vec<Path<'a>>, right: Vec<Path<'a>>) -> Result<Vec<Path<'a>>, NoMemory>
    ensures { IfOk result (λ paths. paths.items ≡ left.entry.items ++ right.entry.items) }
{
    let mut paths = left;
    for path in right {
        paths.push(path)?;
    }
    Ok(paths)
}

// Each path with a stage behind it.
fn staged<'a>(
    alloc: Global,
    before: Vec<Path<'a>>,
    stage: Stage<'a>,
) -> Result<Vec<Path<'a>>, NoMemory>
    ensures values { IfOk result (λ paths. gives paths.items
        ≡ staged stage.entry (gives before.entry.items)) }
    ensures steps { IfOk result (λ paths. paths_steps paths.items
        ≡ steps_behind (stage_steps stage.entry) (paths_cost before.entry.items)) }
{
    let mut paths = Vec::with_capacity(alloc, before.len())?;
    for mut path in before {
        path.stages.push(stage)?;
        paths.push(path)?;
    }
    Ok(paths)
}
