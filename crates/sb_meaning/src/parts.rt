//! What is in a value.
ghost use Rattle.std.specs.Prelude.{◌≡◌, IsUtf8, IfOk, IfSome, map};
ghost use Rattle.sb_meaning.specs.Operations as spec;
ghost use Rattle.sb_types.specs.Value.{rec};
ghost use Rattle.sb_types.specs.ValView.{value_of, view_values};

use sb_terms::Single;
use sb_text::NoMemory;
use sb_types::{Val, Vals, copy};
use sqlite_items::Items;
use std::alloc::Global;

/// The number, and 0 of another type.
pub fn number_in(value: &Val) -> i64
    ensures { result ≡ spec.number_in (value_of value.now) }
{
    match value {
        Val::Int(number) => *number,
        _ => 0,
    }
}

/// The truth, and false of another type.
pub fn truth_in(value: &Val) -> bool
    ensures { result ≡ spec.truth_in (value_of value.now) }
{
    match value {
        Val::Bool(truth) => *truth,
        _ => false,
    }
}

/// The bytes of a text, and none of another type.
pub fn bytes_in(value: &Val) -> &[u8]
    ensures bytes { result.now ≡ spec.bytes_in (value_of value.now) }
    ensures utf8 { IsUtf8 result.now }
{
    match value {
        Val::Text(text) => text.as_bytes(),
        _ => &[],
    }
}

/// The first part of a pair, moved out, and 0 of another type.
pub fn first_in(value: Val) -> Val
    ensures { value_of result ≡ spec.first_in (value_of value) }
{
    match value {
        Val::Pair(first, _) => first.into_inner(),
        _ => Val::Int(0),
    }
}

/// The second part of a pair, moved out, and 0 of another type.
pub fn second_in(value: Val) -> Val
    ensures { value_of result ≡ spec.second_in (value_of value) }
{
    match value {
        Val::Pair(_, second) => second.into_inner(),
        _ => Val::Int(0),
    }
}

/// Both parts of a pair, moved out.
pub fn halves_in(value: Val) -> (Val, Val)
    ensures first { value_of result.0 ≡ spec.first_in (value_of value) }
    ensures second { value_of result.1 ≡ spec.second_in (value_of value) }
{
    match value {
        Val::Pair(first, second) => (first.into_inner(), second.into_inner()),
        _ => (Val::Int(0), Val::Int(0)),
    }
}

/// The part of a pair or the field of a record that this operation gives, and none where the value has no such part.
pub fn part_of(op: Single, whole: &Val) -> Option<&Val>
    ensures { IfSome result (λ part. value_of part.now ≡ spec.one op (value_of whole.now)) }
{
    match op {
        Single::First => first_of(whole),
        Single::Second => second_of(whole),
        Single::Field(place) => field_of(place, whole),
        _ => None,
    }
}

/// The first part of a pair, lent.
pub fn first_of(whole: &Val) -> Option<&Val>
    ensures { spec.part_value result ≡ spec.first_in (value_of whole.now) }
{
    match whole {
        Val::Pair(first, _) => Some(first.get()),
        _ => None,
    }
}

/// The second part of a pair, lent.
pub fn second_of(whole: &Val) -> Option<&Val>
    ensures { spec.part_value result ≡ spec.second_in (value_of whole.now) }
{
    match whole {
        Val::Pair(_, second) => Some(second.get()),
        _ => None,
    }
}

/// The field of a record at a place, from 0, lent.
pub fn field_of(place: u64, whole: &Val) -> Option<&Val>
    ensures { spec.part_value result ≡ spec.field_in place (value_of whole.now) }
{
    match whole {
        Val::Rec(fields) => nth(place as usize, fields),
        _ => None,
    }
}

/// The field that this operation gives of a record of these fields, and none where it gives no field.
pub fn field_at(op: Single, fields: &Vals) -> Option<&Val>
    ensures { IfSome result (λ part. value_of part.now ≡ spec.one op (rec (view_values fields.now))) }
{
    match op {
        Single::Field(place) => nth(place as usize, fields),
        _ => None,
    }
}

/// A record of copies of the fields.
pub fn copy_fields(alloc: Global, fields: &Vals) -> Result<Val, NoMemory>
    ensures { IfOk result (λ v. value_of v ≡ rec (view_values fields.now)) }
{
    let mut values = Vec::with_capacity(alloc, fields.len())?;
    for field in fields.as_slice() {
        values.push(copy(alloc, field)?)?;
    }
    Ok(Val::Rec(Items::from_vec(values)))
}

fn nth(place: usize, values: &Vals) -> Option<&Val>
    ensures { spec.part_value result ≡ spec.nth place (view_values values.now) }
{
    values.get(place)
}

/// A copy of a part, and 0 where there is none.
pub fn copy_part(alloc: Global, part: Option<&Val>) -> Result<Val, NoMemory>
    ensures { IfOk result (λ v. value_of v ≡ spec.part_value part.entry) }
{
    match part {
        Some(part) => copy(alloc, part),
        None => Ok(Val::Int(0)),
    }
}

/// Whether an option has a value.
pub fn is_something(value: &Val) -> bool
    ensures { result ≡ spec.is_something (value_of value.now) }
{
    matches!(value, Val::Opt(Some(_)))
}

/// The elements of a list, moved out.
#[tactic(auto, using(crate::proofs::Views::list_view, crate::proofs::Views::items_view))]
pub fn into_elements(alloc: Global, value: Val) -> Vals
    ensures { map value_of result ≡ spec.elements_in (value_of value) }
{
    match value {
        Val::List(elements) => elements,
        _ => Items::new(alloc),
    }
}

/// The elements of a list, lent, and none of another type.
#[tactic(auto, using(crate::proofs::Views::list_view, crate::proofs::Views::items_view))]
pub fn elements_of(value: &Val) -> &[Val]
    ensures { map value_of result.now ≡ spec.elements_in (value_of value.now) }
{
    match value {
        Val::List(elements) => elements.as_slice(),
        _ => &[],
    }
}

#[tactic(auto, using(crate::proofs::Views::list_view, crate::proofs::Views::length_view))]
fn size_in(value: &Val) -> usize
    ensures { result ≡ spec.size_in (value_of value.now) }
{
    match value {
        Val::Text(text) => text.as_bytes().len(),
        Val::List(values) => values.len(),
        _ => 0,
    }
}

/// The bytes of a text or the elements of a list, counted, and 0 of another type. In memory neither has 2^63.
pub fn length_in(value: &Val) -> i64
    ensures { result ≡ spec.length_in (value_of value.now) }
{
    match i64::try_from(size_in(value)) {
        Ok(length) => length,
        Err(_) => i64::MAX,
    }
}

/// What is in the option, moved out, else the other value.
pub fn in_or(value: Val, other: Val) -> Val
    ensures { value_of result ≡ spec.in_or (value_of value) (value_of other) }
{
    match value {
        Val::Opt(Some(inside)) => inside.into_inner(),
        _ => other,
    }
}
