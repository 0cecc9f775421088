//! Nodes of streams, each with its flow, its type and its width, or with what is wrong with it.
ghost use Rattle.std.specs.Prelude.{◌≡◌, ◌≤◌, ◌*◌, option_map, IfOk, IfNone};
ghost use Rattle.sb_terms.specs.Sizes.{most_leaves};
ghost use Rattle.sb_check.specs.Declarations.{service_of, streamed_of};
ghost use Rattle.sb_check.specs.StreamNodes as spec;
ghost use Rattle.sb_terms.specs.declared.flow.Flow.TheVariants.{Filter, FlatMap, Join, Map, Merge};
ghost use Rattle.sb_terms.specs.Agreement.{joined};
ghost use Rattle.sb_terms.specs.Nodes.{typed_of};
ghost use Rattle.sb_terms.specs.Outcome.{Tells, and_then, or_mistyped};
ghost use Rattle.sb_types.specs.TyView.{type_of};
ghost use Rattle.sb_types.specs.ValueType.{pairs, options};

use crate::declarations::{ServiceDecl, Streamed};
use sb_terms::{
    Fault, Flow, MOST_LEAVES, MOST_NODES, Term, Typed, capped, copy, count_leaves, count_nodes,
    join, option_of, pair_of,
};
use sb_text::NoMemory;
use sb_types::Ty;
use sqlite_items::Boxed;
use std::alloc::Global;

/// What is too much in a stream of this width and this type.
#[tactic(auto, unfolding(crate::specs::StreamNodes::size_fault), using(crate::proofs::Widths::wide_same))]
pub fn size_fault(width: u64, ty: &Ty) -> Option<Fault>
    requires { width ≤ 1049600 }
    ensures fault { result ≡ spec.size_fault width (type_of ty.now) }
    ensures narrow { IfNone result (width ≤ most_leaves) }
{
    if count_nodes(ty) > MOST_NODES {
        return Some(Fault::TooLarge);
    }
    if width * count_leaves(ty) > MOST_LEAVES {
        return Some(Fault::TooWide);
    }
    None
}

// The stream, where it isn't too large or too wide.
fn flow_sized(flow: Flow, width: u64, ty: Ty) -> Result<Streamed, Fault>
    requires { width ≤ 1049600 }
    ensures { Tells streamed_of (spec.flow_sized flow width (type_of ty)) result }
{
    match size_fault(width, &ty) {
        Some(fault) => {
            drop(flow);
            drop(ty);
            Err(fault)
        }
        None => Ok(Streamed { flow, ty, width }),
    }
}

fn flow_node(flow: Flow, width: u64, ty: Option<Ty>) -> Result<Streamed, Fault>
    requires { width ≤ 1049600 }
    ensures { Tells streamed_of (spec.flow_node flow width (option_map type_of ty)) result }
{
    match ty {
        Some(ty) => flow_sized(flow, width, ty),
        None => {
            drop(flow);
            Err(Fault::Mistyped)
        }
    }
}

/// A map over a stream.
pub fn map_node(alloc: Global, before: Streamed, by: Typed) -> Result<Streamed, Fault>
    ensures { Tells streamed_of (spec.map_node (streamed_of before) (typed_of by)) result }
{
    let Streamed {
        flow,
        ty: former,
        width,
    } = before;
    drop(former);
    let Typed { term, ty } = by;
    match mapped(alloc, flow, term) {
        Ok(flow) => flow_sized(flow, width, ty),
        Err(_) => {
            drop(ty);
            Err(Fault::NoMemory)
        }
    }
}

fn mapped(alloc: Global, flow: Flow, by: Term) -> Result<Flow, NoMemory>
    ensures { IfOk result (λ f. f ≡ Map flow by) }
{
    match Boxed::new(alloc, flow) {
        Ok(flow) => Ok(Flow::Map(flow, by)),
        Err(refused) => {
            drop(by);
            Err(refused)
        }
    }
}

/// A filter over a stream.
pub fn filter_node(alloc: Global, before: Streamed, by: Typed) -> Result<Streamed, Fault>
    ensures { Tells streamed_of (spec.filter_node (streamed_of before) (typed_of by)) result }
{
    let Streamed { flow, ty, width } = before;
    let Typed { term, ty: test } = by;
    let ty = filtered(ty, &test);
    drop(test);
    match kept(alloc, flow, term) {
        Ok(flow) => flow_node(flow, width, ty),
        Err(_) => {
            drop(ty);
            Err(Fault::NoMemory)
        }
    }
}

fn kept(alloc: Global, flow: Flow, by: Term) -> Result<Flow, NoMemory>
    ensures { IfOk result (λ f. f ≡ Filter flow by) }
{
    match Boxed::new(alloc, flow) {
        Ok(flow) => Ok(Flow::Filter(flow, by)),
        Err(refused) => {
            drop(by);
            Err(refused)
        }
    }
}

fn filtered(ty: Ty, test: &Ty) -> Option<Ty>
    ensures { option_map type_of result ≡ spec.filtered (type_of ty) (type_of test.now) }
{
    match test {
        Ty::Bool => Some(ty),
        _ => {
            drop(ty);
            None
        }
    }
}

/// The elements of lists, in place of the stream's values.
pub fn flat_node(alloc: Global, before: Streamed, by: Typed) -> Result<Streamed, Fault>
    ensures { Tells streamed_of (spec.flat_node (streamed_of before) (typed_of by)) result }
{
    let Streamed {
        flow,
        ty: former,
        width,
    } = before;
    drop(former);
    let Typed { term, ty: list } = by;
    let sized = match flat_mapped(alloc, flow, term) {
        Ok(flow) => elements_sized(alloc, flow, width, &list),
        Err(_) => Err(Fault::NoMemory),
    };
    drop(list);
    sized
}

fn flat_mapped(alloc: Global, flow: Flow, by: Term) -> Result<Flow, NoMemory>
    ensures { IfOk result (λ f. f ≡ FlatMap flow by) }
{
    match Boxed::new(alloc, flow) {
        Ok(flow) => Ok(Flow::FlatMap(flow, by)),
        Err(refused) => {
            drop(by);
            Err(refused)
        }
    }
}

fn elements_sized(alloc: Global, flow: Flow, width: u64, list: &Ty) -> Result<Streamed, Fault>
    requires { width ≤ most_leaves }
    ensures { Tells streamed_of (and_then (or_mistyped (spec.elements (type_of list.now)))
        (λ of. spec.flow_sized flow (width * of.1) of.0)) result }
{
    match list {
        Ty::List { of, most } => match copy(alloc, of.get()) {
            Ok(of) => times_sized(flow, width, *most, of),
            Err(_) => {
                drop(flow);
                Err(Fault::NoMemory)
            }
        },
        _ => {
            drop(flow);
            Err(Fault::Mistyped)
        }
    }
}

// As many times as wide as a list has elements at most.
fn times_sized(flow: Flow, width: u64, most: u64, of: Ty) -> Result<Streamed, Fault>
    requires { width ≤ most_leaves }
    ensures { Tells streamed_of (spec.flow_sized flow (width * most) (type_of of)) result }
{
    flow_sized(flow, width * capped(most), of)
}

/// Two streams as one.
pub fn merge_node(alloc: Global, left: Streamed, right: Streamed) -> Result<Streamed, Fault>
    ensures { Tells streamed_of (spec.merge_node (streamed_of left) (streamed_of right)) result }
{
    let Streamed {
        flow: a,
        ty: left,
        width: m,
    } = left;
    let Streamed {
        flow: b,
        ty: right,
        width: n,
    } = right;
    let merged = merge_over(alloc, a, b, m + n, &left, &right);
    drop(left);
    drop(right);
    merged
}

fn merge_over(
    alloc: Global,
    a: Flow,
    b: Flow,
    width: u64,
    left: &Ty,
    right: &Ty,
) -> Result<Streamed, Fault>
    requires { width ≤ 2048 }
    ensures { Tells streamed_of
        (spec.flow_node (Merge a b) width (joined (type_of left.now) (type_of right.now))) result }
{
    let flow = merged(alloc, a, b)?;
    match join(alloc, left, right) {
        Ok(joint) => flow_node(flow, width, joint),
        Err(_) => {
            drop(flow);
            Err(Fault::NoMemory)
        }
    }
}

fn merged(alloc: Global, left: Flow, right: Flow) -> Result<Flow, NoMemory>
    ensures { IfOk result (λ flow. flow ≡ Merge left right) }
{
    let left = match Boxed::new(alloc, left) {
        Ok(left) => left,
        Err(refused) => {
            drop(right);
            return Err(refused);
        }
    };
    match Boxed::new(alloc, right) {
        Ok(right) => Ok(Flow::Merge(left, right)),
        Err(refused) => {
            drop(left);
            Err(refused)
        }
    }
}

/// A stream beside what a service has at its keys; `at` is the service's number.
pub fn join_node(
    alloc: Global,
    before: Streamed,
    at: u64,
    service: &ServiceDecl,
) -> Result<Streamed, Fault>
    ensures { Tells streamed_of
        (spec.join_node (streamed_of before) (at, service_of service.now)) result }
{
    let Streamed { flow, ty, width } = before;
    let joined = join_over(alloc, flow, width, at, service, &ty);
    drop(ty);
    joined
}

fn join_over(
    alloc: Global,
    flow: Flow,
    width: u64,
    at: u64,
    service: &ServiceDecl,
    ty: &Ty,
) -> Result<Streamed, Fault>
    requires { width ≤ most_leaves }
    ensures { Tells streamed_of (spec.flow_node (Join flow at) width
        (spec.join_type (service_of service.now) (type_of ty.now))) result }
{
    let flow = looked_up(alloc, flow, at)?;
    match join_type(alloc, service, ty) {
        Ok(joint) => flow_node(flow, width, joint),
        Err(_) => {
            drop(flow);
            Err(Fault::NoMemory)
        }
    }
}

fn looked_up(alloc: Global, flow: Flow, at: u64) -> Result<Flow, NoMemory>
    ensures { IfOk result (λ f. f ≡ Join flow at) }
{
    Ok(Flow::Join(Boxed::new(alloc, flow)?, at))
}

fn join_type(alloc: Global, service: &ServiceDecl, ty: &Ty) -> Result<Option<Ty>, NoMemory>
    ensures { IfOk result (λ t.
        option_map type_of t ≡ spec.join_type (service_of service.now) (type_of ty.now)) }
{
    match ty {
        Ty::Pair(key, value) => joined_pair(alloc, service, key.get(), value.get()),
        _ => Ok(None),
    }
}

fn joined_pair(
    alloc: Global,
    service: &ServiceDecl,
    key: &Ty,
    value: &Ty,
) -> Result<Option<Ty>, NoMemory>
    ensures { IfOk result (λ t. option_map type_of t
        ≡ spec.join_type (service_of service.now) (pairs (type_of key.now) (type_of value.now))) }
{
    match join(alloc, key, &service.key)? {
        Some(both) => {
            drop(both);
            Ok(Some(with_found(alloc, key, value, &service.value)?))
        }
        None => Ok(None),
    }
}

// Pairs of a key, and of a value with what may be found.
fn with_found(alloc: Global, key: &Ty, value: &Ty, found: &Ty) -> Result<Ty, NoMemory>
    ensures { IfOk result (λ t. type_of t
        ≡ pairs (type_of key.now) (pairs (type_of value.now) (options (type_of found.now)))) }
{
    let found = option_of(alloc, copy(alloc, found)?)?;
    let both = behind(alloc, value, found)?;
    behind(alloc, key, both)
}

// The pairs of a type and of another.
fn behind(alloc: Global, first: &Ty, second: Ty) -> Result<Ty, NoMemory>
    ensures { IfOk result (λ t. type_of t ≡ pairs (type_of first.now) (type_of second)) }
{
    match copy(alloc, first) {
        Ok(first) => pair_of(alloc, first, second),
        Err(refused) => {
            drop(second);
            Err(refused)
        }
    }
}
