//! Statements: first the names in them, then the name that they declare, then the walk, then the store.
ghost use Rattle.std.specs.Prelude.{◌≡◌, IfOk};
ghost use Rattle.sb_check.specs.Answers.{Leaves};
ghost use Rattle.sb_check.specs.Declarations as decl;
ghost use Rattle.sb_check.specs.Declarations.{declarations_of, store_of, streamed_of};
ghost use Rattle.sb_check.specs.MonoidText.{monoid_text};
ghost use Rattle.sb_check.specs.Programs as spec;
ghost use Rattle.sb_check.specs.StreamNodes.{size_fault};
ghost use Rattle.sb_kind.specs.Monoids.{IsWithin, monoid_in};
ghost use Rattle.sb_kind.specs.KindView.{monoid_of};
ghost use Rattle.sb_terms.specs.Outcome.{Tells};
ghost use Rattle.sb_terms.specs.Written.{scalar_type};
ghost use Rattle.sb_types.specs.TyView.{type_of, view_fields};
ghost use Rattle.sb_types.specs.ValueType.{records};

use crate::declarations::{Declared, LetDecl, ServiceDecl, SourceDecl, StoreDecl, Streamed};
use crate::monoids::{is_key_type, mono, push_mono};
use crate::names::{has_twins, is_declared};
use crate::streams::{is_known, stream};
use sb_grammar::{FieldTree, MonoTree, Scalar, Statement, Stream};
use sb_kind::Kind;
use sb_terms::{
    Fault, Flow, MOST_LEAVES, MOST_NODES, copy, count_field_leaves, count_field_nodes, scalar_type,
};
use sb_text::{NoMemory, Text};
use sb_types::{Field, Fields, Mono, Ty};
use sqlite_items::Items;
use std::alloc::Global;

/// Declares what this statement declares. After a refusal, what is declared is no more looked at.
pub fn statement(alloc: Global, tree: &Statement, declared: &mut Declared) -> Result<(), Fault>
    ensures { Leaves declarations_of (spec.statement_check (declarations_of declared.old) tree.now)
        declared.new result }
{
    match tree {
        Statement::Source { name, fields } => source(alloc, name, fields.as_slice(), declared),
        Statement::Service { name, key, value } => service(alloc, name, *key, *value, declared),
        Statement::Let { name, stream } => bound(alloc, name, stream, declared),
        Statement::Store { name, stream, mono } => store(alloc, name, stream, mono, declared),
    }
}

// What is wrong with the name that a statement declares.
fn name_fault(declared: &Declared, name: &Text) -> Option<Fault>
    ensures { result ≡ spec.name_fault (declarations_of declared.now) name.now }
{
    if is_declared(declared, name.as_bytes()) {
        return Some(Fault::Twice);
    }
    None
}

// What is wrong with the names in a stream, and then with the name that it gets.
fn names_fault(declared: &Declared, name: &Text, tree: &Stream) -> Option<Fault>
    ensures { result ≡ spec.names_fault (declarations_of declared.now) name.now tree.now }
{
    if !is_known(tree, declared) {
        return Some(Fault::Unknown);
    }
    name_fault(declared, name)
}

// What is wrong with the names of a source and of its fields.
fn source_fault(declared: &Declared, name: &Text, fields: &[FieldTree]) -> Option<Fault>
    ensures { result ≡ spec.source_fault (declarations_of declared.now) name.now fields.now }
{
    if is_declared(declared, name.as_bytes()) || has_twins(fields) {
        return Some(Fault::Twice);
    }
    None
}

fn source(
    alloc: Global,
    name: &Text,
    fields: &[FieldTree],
    declared: &mut Declared,
) -> Result<(), Fault>
    ensures { Leaves declarations_of
        (spec.source_check (declarations_of declared.old) name.now fields.now) declared.new result }
{
    if let Some(fault) = source_fault(declared, name, fields) {
        return Err(fault);
    }
    let fields = row_of(alloc, fields)?;
    if let Some(fault) = row_fault(fields.as_slice()) {
        return Err(fault);
    }
    let source = source_of(alloc, name, fields)?;
    declared.sources.push(source)?;
    Ok(())
}

fn source_of(alloc: Global, name: &Text, fields: Fields) -> Result<SourceDecl, NoMemory>
    ensures { IfOk result (λ s. decl.source_of s
        ≡ record { name = name.now; fields = view_fields fields }) }
{
    let name = name.copy(alloc)?;
    Ok(SourceDecl { name, fields })
}

fn row_of(alloc: Global, trees: &[FieldTree]) -> Result<Fields, NoMemory>
    ensures { IfOk result (λ fields. view_fields fields ≡ spec.row_of trees.now) }
{
    let mut fields = Vec::with_capacity(alloc, trees.len())?;
    for tree in trees {
        fields.push(field_of(alloc, tree)?)?;
    }
    Ok(Items::from_vec(fields))
}

fn field_of(alloc: Global, tree: &FieldTree) -> Result<Field, NoMemory>
    ensures name { IfOk result (λ field. field.name ≡ tree.now.name) }
    ensures ty { IfOk result (λ field. type_of field.ty ≡ scalar_type tree.now.scalar) }
{
    let name = tree.name.copy(alloc)?;
    let ty = scalar_type(tree.scalar);
    Ok(Field { name, ty })
}

// What is too much in a record of these fields.
#[tactic(auto, unfolding(crate::specs::StreamNodes::size_fault))]
fn row_fault(fields: &[Field]) -> Option<Fault>
    ensures { result ≡ size_fault 1 (records (view_fields fields.now)) }
{
    if count_field_nodes(fields) + 1 > MOST_NODES {
        return Some(Fault::TooLarge);
    }
    if count_field_leaves(fields) > MOST_LEAVES {
        return Some(Fault::TooWide);
    }
    None
}

fn service(
    alloc: Global,
    name: &Text,
    key: Scalar,
    value: Scalar,
    declared: &mut Declared,
) -> Result<(), Fault>
    ensures { Leaves declarations_of
        (spec.service_check (declarations_of declared.old) name.now key value) declared.new result }
{
    if let Some(fault) = name_fault(declared, name) {
        return Err(fault);
    }
    let name = name.copy(alloc)?;
    declared.services.push(ServiceDecl {
        name,
        key: scalar_type(key),
        value: scalar_type(value),
    })?;
    Ok(())
}

fn bound(alloc: Global, name: &Text, tree: &Stream, declared: &mut Declared) -> Result<(), Fault>
    ensures { Leaves declarations_of
        (spec.let_check (declarations_of declared.old) name.now tree.now) declared.new result }
{
    if let Some(fault) = names_fault(declared, name, tree) {
        return Err(fault);
    }
    let stream = stream(alloc, tree, declared)?;
    let bound = let_of(alloc, name, stream)?;
    declared.lets.push(bound)?;
    Ok(())
}

fn let_of(alloc: Global, name: &Text, stream: Streamed) -> Result<LetDecl, NoMemory>
    ensures { IfOk result (λ bound. decl.let_of bound
        ≡ record { name = name.now; stream = streamed_of stream }) }
{
    match name.copy(alloc) {
        Ok(name) => Ok(LetDecl { name, stream }),
        Err(refused) => {
            drop(stream);
            Err(refused)
        }
    }
}

fn store(
    alloc: Global,
    name: &Text,
    tree: &Stream,
    mono: &MonoTree,
    declared: &mut Declared,
) -> Result<(), Fault>
    ensures { Leaves declarations_of
        (spec.store_check (declarations_of declared.old) name.now tree.now mono.now)
        declared.new result }
{
    if let Some(fault) = names_fault(declared, name, tree) {
        return Err(fault);
    }
    let stream = stream(alloc, tree, declared)?;
    let store = store_over(alloc, name, mono, stream)?;
    declared.stores.push(store)?;
    Ok(())
}

fn store_over(
    alloc: Global,
    name: &Text,
    tree: &MonoTree,
    stream: Streamed,
) -> Result<StoreDecl, Fault>
    ensures { Tells store_of (spec.store_over name.now tree.now (streamed_of stream)) result }
{
    let Streamed { flow, ty, width: _ } = stream;
    let made = match &ty {
        Ty::Pair(key, value) => fed(alloc, name, tree, flow, key.get(), value.get()),
        _ => {
            drop(flow);
            Err(Fault::Mistyped)
        }
    };
    drop(ty);
    made
}

// The store that this flow of keys and values feeds.
fn fed(
    alloc: Global,
    name: &Text,
    tree: &MonoTree,
    flow: Flow,
    key: &Ty,
    value: &Ty,
) -> Result<StoreDecl, Fault>
    ensures { Tells store_of
        (spec.fed name.now tree.now flow (type_of key.now) (type_of value.now)) result }
{
    if !is_key_type(key) {
        drop(flow);
        return Err(Fault::NotAKey);
    }
    let mono = match mono(alloc, tree, value) {
        Ok(mono) => mono,
        Err(fault) => {
            drop(flow);
            return Err(fault);
        }
    };
    let store = summing(alloc, name, &mono, flow, key, value);
    drop(mono);
    match store {
        Ok(store) => Ok(store),
        Err(_) => Err(Fault::NoMemory),
    }
}

// The store of this monoid.
fn summing(
    alloc: Global,
    name: &Text,
    mono: &Mono,
    flow: Flow,
    key: &Ty,
    value: &Ty,
) -> Result<StoreDecl, NoMemory>
    requires { IsWithin (monoid_in mono.now) }
    ensures { IfOk result (λ store. store_of store ≡ record {
      name = name.now;
      key = type_of key.now;
      value = type_of value.now;
      monoid = monoid_in mono.now;
      flow = flow;
    }) }
{
    match parts_of(alloc, name, mono, key, value) {
        Ok((name, types, made)) => Ok(store_of_all(name, types, made, flow)),
        Err(refused) => {
            drop(flow);
            Err(refused)
        }
    }
}

// The name, the types of keys and values, and the kind with its text. What was made is dropped by a call where the kind finds
// no memory: behind a `?` that drop would be laid out here.
fn parts_of(
    alloc: Global,
    name: &Text,
    mono: &Mono,
    key: &Ty,
    value: &Ty,
) -> Result<(Text, (Ty, Ty), (Kind, Vec<u8>)), NoMemory>
    requires { IsWithin (monoid_in mono.now) }
    ensures name { IfOk result (λ parts. parts.0 ≡ name.now) }
    ensures types { IfOk result (λ parts. (parts.1.0 ≡ key.now) × (parts.1.1 ≡ value.now)) }
    ensures kind { IfOk result (λ parts. monoid_of parts.2.0 ≡ monoid_in mono.now) }
    ensures text { IfOk result (λ parts. parts.2.1.items ≡ monoid_text (monoid_of parts.2.0)) }
{
    let name = name.copy(alloc)?;
    let types = types_of(alloc, key, value)?;
    match kind_of(alloc, mono) {
        Ok(made) => Ok((name, types, made)),
        Err(refused) => {
            drop(types);
            Err(refused)
        }
    }
}

fn types_of(alloc: Global, key: &Ty, value: &Ty) -> Result<(Ty, Ty), NoMemory>
    ensures { IfOk result (λ types. (types.0 ≡ key.now) × (types.1 ≡ value.now)) }
{
    let key = copy(alloc, key)?;
    match copy(alloc, value) {
        Ok(value) => Ok((key, value)),
        Err(refused) => {
            drop(key);
            Err(refused)
        }
    }
}

fn store_of_all(name: Text, types: (Ty, Ty), made: (Kind, Vec<u8>), flow: Flow) -> StoreDecl
    requires { made.1.items ≡ monoid_text (monoid_of made.0) }
    ensures { store_of result ≡ record {
      name = name;
      key = type_of types.0;
      value = type_of types.1;
      monoid = monoid_of made.0;
      flow = flow;
    } }
{
    let (key, value) = types;
    let (kind, text) = made;
    StoreDecl {
        name,
        key,
        value,
        kind,
        flow,
        text,
    }
}

// The kind of a monoid, and its text.
fn kind_of(alloc: Global, mono: &Mono) -> Result<(Kind, Vec<u8>), NoMemory>
    requires { IsWithin (monoid_in mono.now) }
    ensures kind { IfOk result (λ made. monoid_of made.0 ≡ monoid_in mono.now) }
    ensures text { IfOk result (λ made. made.1.items ≡ monoid_text (monoid_in mono.now)) }
{
    let text = text_of(alloc, mono)?;
    match Kind::new(alloc, mono)? {
        Some(kind) => Ok((kind, text)),
        None => Ok((Kind::Sum, text)),
    }
}

fn text_of(alloc: Global, mono: &Mono) -> Result<Vec<u8>, NoMemory>
    ensures { IfOk result (λ text. text.items ≡ monoid_text (monoid_in mono.now)) }
{
    let mut text = Vec::new(alloc);
    push_mono(alloc, mono, &mut text)?;
    Ok(text)
}
