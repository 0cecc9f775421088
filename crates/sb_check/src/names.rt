//! What a name stands for.
ghost use Rattle.std.specs.Prelude.{◌≡◌, map, option_map, is_some, bytes_eq};
ghost use Rattle.std.specs.List.{list_any};
ghost use Rattle.sb_check.specs.Declarations.{source_of, service_of, let_of, store_of, declarations_of, streamed_of};
ghost use Rattle.sb_check.specs.Names as spec;
ghost use Rattle.sb_check.specs.Programs.{field_names};
ghost use Rattle.sb_check.specs.Streams.{or_unknown};
ghost use Rattle.sb_terms.specs.Outcome.{Tells};

use crate::declarations::{Declared, LetDecl, ServiceDecl, SourceDecl, StoreDecl, Streamed};
use sb_grammar::FieldTree;
use sb_terms::{Fault, Flow, copy, copy_fields};
use sb_types::Ty;
use sqlite_items::Items;
use std::alloc::Global;

fn find_source<'a>(sources: &'a [SourceDecl], name: &[u8]) -> Option<(u64, &'a SourceDecl)>
    ensures { option_map (λ f. (f.0, source_of f.1.now)) result
        ≡ spec.found (λ s. s.name) name.now (map source_of sources.now) }
{
    for (at, source) in sources.iter().enumerate() {
        if name == source.name.as_bytes() {
            return Some((at as u64, source));
        }
    }
    None
}

/// The service of this name, with its number.
pub fn find_service<'a>(services: &'a [ServiceDecl], name: &[u8]) -> Option<(u64, &'a ServiceDecl)>
    ensures { option_map (λ f. (f.0, service_of f.1.now)) result
        ≡ spec.found (λ s. s.name) name.now (map service_of services.now) }
{
    for (at, service) in services.iter().enumerate() {
        if name == service.name.as_bytes() {
            return Some((at as u64, service));
        }
    }
    None
}

fn find_let<'a>(lets: &'a [LetDecl], name: &[u8]) -> Option<(u64, &'a LetDecl)>
    ensures { option_map (λ f. (f.0, let_of f.1.now)) result
        ≡ spec.found (λ s. s.name) name.now (map let_of lets.now) }
{
    for (at, bound) in lets.iter().enumerate() {
        if name == bound.name.as_bytes() {
            return Some((at as u64, bound));
        }
    }
    None
}

fn find_store<'a>(stores: &'a [StoreDecl], name: &[u8]) -> Option<(u64, &'a StoreDecl)>
    ensures { option_map (λ f. (f.0, store_of f.1.now)) result
        ≡ spec.found (λ s. s.name) name.now (map store_of stores.now) }
{
    for (at, store) in stores.iter().enumerate() {
        if name == store.name.as_bytes() {
            return Some((at as u64, store));
        }
    }
    None
}

/// Whether the name is declared.
pub fn is_declared(declared: &Declared, name: &[u8]) -> bool
    ensures { result ≡ spec.is_declared (declarations_of declared.now) name.now }
{
    find_source(declared.sources.as_slice(), name).is_some()
        || find_service(declared.services.as_slice(), name).is_some()
        || find_let(declared.lets.as_slice(), name).is_some()
        || find_store(declared.stores.as_slice(), name).is_some()
}

/// Whether two fields have one name.
pub fn has_twins(fields: &[FieldTree]) -> bool
    ensures { result ≡ spec.has_twins (field_names fields.now) }
{
    for (at, field) in fields.iter().enumerate() {
        if is_field(&fields[at + 1..], field.name.as_bytes()) {
            return true;
        }
    }
    false
}

fn is_field(fields: &[FieldTree], name: &[u8]) -> bool
    ensures { result ≡ list_any (bytes_eq name.now) (field_names fields.now) }
{
    for field in fields {
        if name == field.name.as_bytes() {
            return true;
        }
    }
    false
}

/// The stream of this name: a source's or a let's.
pub fn stream_named(alloc: Global, declared: &Declared, name: &[u8]) -> Result<Streamed, Fault>
    ensures { Tells streamed_of
        (or_unknown (spec.stream_named (declarations_of declared.now) name.now))
        result }
{
    if let Some((at, source)) = find_source(declared.sources.as_slice(), name) {
        let fields = copy_fields(alloc, source.fields.as_slice())?;
        return Ok(Streamed {
            flow: Flow::Source(at),
            ty: Ty::Rec(Items::from_vec(fields)),
            width: 1,
        });
    }
    match find_let(declared.lets.as_slice(), name) {
        Some((at, bound)) => Ok(Streamed {
            flow: Flow::Let(at),
            ty: copy(alloc, &bound.stream.ty)?,
            width: bound.stream.width,
        }),
        None => Err(Fault::Unknown),
    }
}

/// Whether a source or a let has this name.
pub fn is_stream(declared: &Declared, name: &[u8]) -> bool
    ensures { result ≡ is_some (spec.stream_named (declarations_of declared.now) name.now) }
{
    find_source(declared.sources.as_slice(), name).is_some()
        || find_let(declared.lets.as_slice(), name).is_some()
}

/// Whether a service has this name.
pub fn is_service(declared: &Declared, name: &[u8]) -> bool
    ensures { result ≡ is_some (spec.service_named (declarations_of declared.now) name.now) }
{
    find_service(declared.services.as_slice(), name).is_some()
}
