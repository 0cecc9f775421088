//! Values of a type, read from their texts.
ghost use Rattle.std.specs.Prelude.{◌≡◌, List, ℕ, ◌++◌, Some, None, IfOk, IfSome, option_map, if◌then◌else◌};
ghost use Rattle.sb_types.specs.Key.{IsKeyOf, is_key};
ghost use Rattle.sb_types.specs.Read.{IsEnd, front_of, parts_of, next_front, further_front, parts_front, list_front, value_front, fields_front, value_read};
ghost use Rattle.sb_types.specs.Text.{value_text};
ghost use Rattle.sb_types.specs.Typed.{IsValueOf};
ghost use Rattle.sb_types.specs.TyView.{type_of, view_fields};
ghost use Rattle.sb_types.specs.ValView.{value_of};
ghost use Rattle.sb_types.specs.Value.{Value};
ghost use Rattle.sb_types.specs.ValueType.{records};

use crate::leaves::{expect, read_bool, read_int, read_text};
use crate::types::{Field, Ty};
use crate::values::Val;
use sb_text::NoMemory;
use sqlite_items::{Boxed, Items};
use std::alloc::Global;

/// The value of a type of which this is the text; `None` exactly where the bytes are no such value's text.
pub fn read(alloc: Global, ty: &Ty, bytes: &[u8]) -> Result<Option<Val>, NoMemory>
    ensures spelled { IfOk result (λ value.
        IfSome value (λ v. IsValueOf (type_of ty.now) (value_of v)
        × (bytes.now ≡ value_text (value_of v)))) }
    ensures every { IfOk result (λ value. (v : Value) → IsValueOf (type_of ty.now) v
        → bytes.now ≡ value_text v → option_map value_of value ≡ Some v) }
{
    read_whole(alloc, ty, bytes)
}

/// The value of a key type of which this is the text; `None` exactly where the bytes are no such value's text, as
/// with a type that is no key type.
pub fn read_key(alloc: Global, ty: &Ty, bytes: &[u8]) -> Result<Option<Val>, NoMemory>
    ensures spelled { IfOk result (λ key. IfSome key
        (λ v. IsKeyOf (type_of ty.now) (value_of v) × (bytes.now ≡ value_text (value_of v)))) }
    ensures every { IfOk result (λ key. (v : Value) → IsKeyOf (type_of ty.now) v
        → bytes.now ≡ value_text v → option_map value_of key ≡ Some v) }
{
    match read(alloc, ty, bytes)? {
        Some(value) => Ok(key_in(value)),
        None => Ok(None),
    }
}

/// The value of a type at the front of the bytes, and what follows its text. A text that stands before anything but the
/// end or one of `,`, `)`, `]`, `}` and `=` need not be found.
pub fn read_front<'a>(
    alloc: Global,
    ty: &Ty,
    bytes: &'a [u8],
) -> Result<Option<(Val, &'a [u8])>, NoMemory>
    ensures value { IfOk result (λ read. option_map front_of read
        ≡ value_front (type_of ty.now) bytes.now) }
    ensures spelled { IfOk result (λ read. IfSome read
        (λ r. IsValueOf (type_of ty.now) (value_of r.0)
        × (bytes.now ≡ value_text (value_of r.0) ++ r.1.now))) }
    ensures every { IfOk result (λ read. (v : Value) (rest : List ℕ) → IsValueOf (type_of ty.now) v
        → IsEnd rest → bytes.now ≡ value_text v ++ rest
        → option_map front_of read ≡ Some (record { value = v; rest = rest })) }
{
    value_at_front(alloc, ty, bytes)
}

fn read_whole(alloc: Global, ty: &Ty, bytes: &[u8]) -> Result<Option<Val>, NoMemory>
    ensures { IfOk result (λ value. option_map value_of value
        ≡ value_read (type_of ty.now) bytes.now) }
{
    match value_at_front(alloc, ty, bytes)? {
        Some((value, [])) => Ok(Some(value)),
        _ => Ok(None),
    }
}

// The value, where it is a key.
fn key_in(value: Val) -> Option<Val>
    ensures { result ≡ (if is_key (value_of value) then Some value else None) }
{
    if is_key(&value) { Some(value) } else { None }
}

fn is_key(value: &Val) -> bool
    ensures { result ≡ is_key (value_of value.now) }
{
    match value {
        Val::Int(_) | Val::Text(_) | Val::Bool(_) | Val::Opt(None) => true,
        Val::Pair(left, right) => is_key(left.get()) && is_key(right.get()),
        Val::Opt(Some(inside)) => is_key(inside.get()),
        Val::List(_) | Val::Rec(_) => false,
    }
}

#[cycle(read)]
fn value_at_front<'a>(
    alloc: Global,
    ty: &Ty,
    bytes: &'a [u8],
) -> Result<Option<(Val, &'a [u8])>, NoMemory>
    ensures { IfOk result (λ read. option_map front_of read
        ≡ value_front (type_of ty.now) bytes.now) }
{
    match ty {
        Ty::Int => Ok(read_int(bytes)),
        Ty::Text => read_text(alloc, bytes),
        Ty::Bool => Ok(read_bool(bytes)),
        Ty::Pair(first, second) => {
            let Some(bytes) = expect(b'(', bytes) else {
                return Ok(None);
            };
            let Some((left, bytes)) = value_at_front(alloc, first.get(), bytes)? else {
                return Ok(None);
            };
            let Some(bytes) = expect(b',', bytes) else {
                return Ok(None);
            };
            let Some((right, bytes)) = value_at_front(alloc, second.get(), bytes)? else {
                return Ok(None);
            };
            let Some(bytes) = expect(b')', bytes) else {
                return Ok(None);
            };
            let pair = Val::Pair(Boxed::new(alloc, left)?, Boxed::new(alloc, right)?);
            Ok(Some((pair, bytes)))
        }
        Ty::Opt(of) => {
            if let Some(bytes) = expect(b'~', bytes) {
                return Ok(Some((Val::Opt(None), bytes)));
            }
            let Some(bytes) = expect(b'+', bytes) else {
                return Ok(None);
            };
            let Some((inside, bytes)) = value_at_front(alloc, of.get(), bytes)? else {
                return Ok(None);
            };
            Ok(Some((Val::Opt(Some(Boxed::new(alloc, inside)?)), bytes)))
        }
        Ty::List { of, most } => read_list(alloc, of.get(), *most, bytes),
        Ty::Rec(fields) => read_record(alloc, fields.as_slice(), bytes),
    }
}

#[cycle(read)]
fn read_list<'a>(
    alloc: Global,
    of: &Ty,
    most: u64,
    bytes: &'a [u8],
) -> Result<Option<(Val, &'a [u8])>, NoMemory>
    ensures { IfOk result (λ read. option_map front_of read
        ≡ list_front (value_front (type_of of.now)) most bytes.now) }
{
    let Some(bytes) = expect(b'[', bytes) else {
        return Ok(None);
    };
    let (values, bytes) = read_parts(alloc, of, bytes)?;
    if values.len() as u64 > most {
        return Ok(None);
    }
    let Some(bytes) = expect(b']', bytes) else {
        return Ok(None);
    };
    Ok(Some((Val::List(Items::from_vec(values)), bytes)))
}

// The values that stand at the front of the bytes, with a comma between each two.
#[cycle(read)]
fn read_parts<'a>(alloc: Global, of: &Ty, bytes: &'a [u8]) -> Result<(Vec<Val>, &'a [u8]), NoMemory>
    ensures { IfOk result (λ read. parts_of (read.0.items, read.1.now)
        ≡ parts_front (value_front (type_of of.now)) bytes.now) }
{
    let mut values = Vec::new(alloc);
    let Some((first, bytes)) = value_at_front(alloc, of, bytes)? else {
        return Ok((values, bytes));
    };
    values.push(first)?;
    let mut rest = bytes;
    for _ in 0..bytes.len() {
        let Some((value, after)) = read_next(alloc, of, rest)? else {
            return Ok((values, rest));
        };
        values.push(value)?;
        rest = after;
    }
    Ok((values, rest))
}

// The value behind a comma.
#[cycle(read)]
fn read_next<'a>(
    alloc: Global,
    of: &Ty,
    bytes: &'a [u8],
) -> Result<Option<(Val, &'a [u8])>, NoMemory>
    ensures { IfOk result (λ read. option_map front_of read
        ≡ next_front (value_front (type_of of.now)) bytes.now) }
{
    match expect(b',', bytes) {
        Some(bytes) => value_at_front(alloc, of, bytes),
        None => Ok(None),
    }
}

#[cycle(read)]
fn read_record<'a>(
    alloc: Global,
    fields: &[Field],
    bytes: &'a [u8],
) -> Result<Option<(Val, &'a [u8])>, NoMemory>
    ensures { IfOk result (λ read. option_map front_of read
        ≡ value_front (records (view_fields fields.now)) bytes.now) }
{
    let Some(bytes) = expect(b'{', bytes) else {
        return Ok(None);
    };
    let Some((values, bytes)) = read_fields(alloc, fields, bytes)? else {
        return Ok(None);
    };
    let Some(bytes) = expect(b'}', bytes) else {
        return Ok(None);
    };
    Ok(Some((Val::Rec(Items::from_vec(values)), bytes)))
}

// A value for each field, with a comma between each two.
#[cycle(read)]
fn read_fields<'a>(
    alloc: Global,
    fields: &[Field],
    bytes: &'a [u8],
) -> Result<Option<(Vec<Val>, &'a [u8])>, NoMemory>
    ensures { IfOk result (λ read. option_map (λ r. parts_of (r.0.items, r.1.now)) read
        ≡ fields_front (view_fields fields.now) bytes.now) }
{
    let mut values = Vec::with_capacity(alloc, fields.len())?;
    let mut rest = bytes;
    for (at, field) in fields.iter().enumerate() {
        let read = if at == 0 {
            value_at_front(alloc, &field.ty, rest)?
        } else {
            read_next(alloc, &field.ty, rest)?
        };
        let Some((value, after)) = read else {
            return Ok(None);
        };
        values.push(value)?;
        rest = after;
    }
    Ok(Some((values, rest)))
}
