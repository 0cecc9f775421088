//! The walk of a stream: head and stages from the left, and in each stage its expression before the stage.
ghost use Rattle.std.specs.Prelude.{◌≡◌};
ghost use Rattle.sb_check.specs.Declarations.{declarations_of, streamed_of};
ghost use Rattle.sb_check.specs.Names.{service_named};
ghost use Rattle.sb_check.specs.StreamNodes.{map_node, filter_node, flat_node, join_node};
ghost use Rattle.sb_check.specs.Streams as spec;
ghost use Rattle.sb_terms.specs.Expressions.{expr_walk};
ghost use Rattle.sb_terms.specs.Outcome.{Tells, and_then};

use crate::declarations::{Declared, Streamed};
use crate::names::{find_service, is_service, is_stream, stream_named};
use crate::stream_nodes::{filter_node, flat_node, join_node, map_node, merge_node};
use sb_grammar::{Expr, Head, Stage, Stream};
use sb_terms::{Fault, expr};
use std::alloc::Global;

fn stage(
    alloc: Global,
    tree: &Stage,
    declared: &Declared,
    before: Streamed,
) -> Result<Streamed, Fault>
    ensures { Tells streamed_of
        (spec.stage_walk (declarations_of declared.now) tree.now (streamed_of before)) result }
{
    match tree {
        Stage::Map(by) => map_stage(alloc, by, before),
        Stage::Filter(by) => filter_stage(alloc, by, before),
        Stage::FlatMap(by) => flat_stage(alloc, by, before),
        Stage::LeftJoin(name) => join_stage(alloc, name.as_bytes(), declared, before),
    }
}

fn map_stage(alloc: Global, by: &Expr, before: Streamed) -> Result<Streamed, Fault>
    ensures { Tells streamed_of (and_then (expr_walk by.now (streamed_of before).type)
        (map_node (streamed_of before))) result }
{
    match expr(alloc, by, &before.ty) {
        Ok(by) => map_node(alloc, before, by),
        Err(fault) => {
            drop(before);
            Err(fault)
        }
    }
}

fn filter_stage(alloc: Global, by: &Expr, before: Streamed) -> Result<Streamed, Fault>
    ensures { Tells streamed_of (and_then (expr_walk by.now (streamed_of before).type)
        (filter_node (streamed_of before))) result }
{
    match expr(alloc, by, &before.ty) {
        Ok(by) => filter_node(alloc, before, by),
        Err(fault) => {
            drop(before);
            Err(fault)
        }
    }
}

fn flat_stage(alloc: Global, by: &Expr, before: Streamed) -> Result<Streamed, Fault>
    ensures { Tells streamed_of (and_then (expr_walk by.now (streamed_of before).type)
        (flat_node (streamed_of before))) result }
{
    match expr(alloc, by, &before.ty) {
        Ok(by) => flat_node(alloc, before, by),
        Err(fault) => {
            drop(before);
            Err(fault)
        }
    }
}

fn join_stage(
    alloc: Global,
    name: &[u8],
    declared: &Declared,
    before: Streamed,
) -> Result<Streamed, Fault>
    ensures { Tells streamed_of
        (and_then (spec.or_unknown (service_named (declarations_of declared.now) name.now))
        (join_node (streamed_of before))) result }
{
    match find_service(declared.services.as_slice(), name) {
        Some((at, service)) => join_node(alloc, before, at, service),
        None => {
            drop(before);
            Err(Fault::Unknown)
        }
    }
}

/// The stream over what is declared, or its first fault. A statement has at most 256 tokens, which bounds the depth.
#[cycle(walk)]
pub fn stream(alloc: Global, tree: &Stream, declared: &Declared) -> Result<Streamed, Fault>
    ensures { Tells streamed_of (spec.stream_walk tree.now (declarations_of declared.now)) result }
{
    let mut whole = head(alloc, &tree.head, declared)?;
    for next in tree.stages.as_slice() {
        whole = stage(alloc, next, declared, whole)?;
    }
    Ok(whole)
}

#[cycle(walk)]
fn head(alloc: Global, tree: &Head, declared: &Declared) -> Result<Streamed, Fault>
    ensures { Tells streamed_of (spec.head_walk tree.now (declarations_of declared.now)) result }
{
    match tree {
        Head::Name(name) => stream_named(alloc, declared, name.as_bytes()),
        Head::Merge(left, right) => {
            let left = stream(alloc, left.get(), declared)?;
            match stream(alloc, right.get(), declared) {
                Ok(right) => merge_node(alloc, left, right),
                Err(fault) => {
                    drop(left);
                    Err(fault)
                }
            }
        }
    }
}

/// Whether every name in the stream is declared as what it stands for.
#[cycle(known)]
pub fn is_known(tree: &Stream, declared: &Declared) -> bool
    ensures { result ≡ spec.stream_known tree.now (declarations_of declared.now) }
{
    is_known_head(&tree.head, declared) && are_known(tree.stages.as_slice(), declared)
}

#[cycle(known)]
fn is_known_head(tree: &Head, declared: &Declared) -> bool
    ensures { result ≡ spec.head_known tree.now (declarations_of declared.now) }
{
    match tree {
        Head::Name(name) => is_stream(declared, name.as_bytes()),
        Head::Merge(left, right) => {
            is_known(left.get(), declared) && is_known(right.get(), declared)
        }
    }
}

fn are_known(stages: &[Stage], declared: &Declared) -> bool
    ensures { result ≡ spec.stages_known (declarations_of declared.now) stages.now }
{
    for stage in stages {
        if !is_known_stage(stage, declared) {
            return false;
        }
    }
    true
}

fn is_known_stage(stage: &Stage, declared: &Declared) -> bool
    ensures { result ≡ spec.stage_known (declarations_of declared.now) stage.now }
{
    match stage {
        Stage::Map(_) | Stage::Filter(_) | Stage::FlatMap(_) => true,
        Stage::LeftJoin(name) => is_service(declared, name.as_bytes()),
    }
}
