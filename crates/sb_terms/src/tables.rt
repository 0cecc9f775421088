//! The types of expressions, by the types of their parts. None is where there is no type.
ghost use Rattle.std.specs.Prelude.{◌≡◌, map, option_map, IfOk};
ghost use Rattle.sb_terms.specs.Tables as spec;
ghost use Rattle.sb_types.specs.TyView.{type_of, view_fields};
ghost use Rattle.sb_types.specs.ValueType.{lists, options, pairs};

use crate::agreement::join;
use crate::copying::{copy, pair};
use crate::term::{Double, Single};
use sb_text::NoMemory;
use sb_types::{Field, Fields, Ty};
use sqlite_items::Boxed;
use std::alloc::Global;

/// The place of the first field of this name, from 0.
pub fn place_in(name: &[u8], ty: &Ty) -> Option<u64>
    ensures { result ≡ spec.place_in name.now (type_of ty.now) }
{
    match ty {
        Ty::Rec(fields) => field_place(name, fields.as_slice()),
        _ => None,
    }
}

fn field_place(name: &[u8], fields: &[Field]) -> Option<u64>
    ensures { result ≡ spec.field_place name.now (view_fields fields.now) }
{
    for (at, field) in fields.iter().enumerate() {
        if name == field.name.as_bytes() {
            return Some(at as u64);
        }
    }
    None
}

fn field_type(alloc: Global, place: u64, fields: &Fields) -> Result<Option<Ty>, NoMemory>
    ensures { IfOk result (λ t.
        option_map type_of t ≡ spec.field_type place (view_fields fields.now)) }
{
    match fields.get(place as usize) {
        Some(field) => Ok(Some(copy(alloc, &field.ty)?)),
        None => Ok(None),
    }
}

/// The type of options of this type.
pub fn option_of(alloc: Global, of: Ty) -> Result<Ty, NoMemory>
    ensures { IfOk result (λ t. type_of t ≡ options (type_of of)) }
{
    Ok(Ty::Opt(Boxed::new(alloc, of)?))
}

/// The type of lists of at most `most` of this type.
pub fn list_of(alloc: Global, of: Ty, most: u64) -> Result<Ty, NoMemory>
    ensures { IfOk result (λ t. type_of t ≡ lists (type_of of) most) }
{
    let of = Boxed::new(alloc, of)?;
    Ok(Ty::List { of, most })
}

/// The type of pairs of these types.
pub fn pair_of(alloc: Global, first: Ty, second: Ty) -> Result<Ty, NoMemory>
    ensures { IfOk result (λ t. type_of t ≡ pairs (type_of first) (type_of second)) }
{
    pair(alloc, first, second)
}

/// The type of what is done with one value.
pub fn one_type(alloc: Global, op: Single, ty: &Ty) -> Result<Option<Ty>, NoMemory>
    ensures { IfOk result (λ t. option_map type_of t ≡ spec.one_type op (type_of ty.now)) }
{
    match (op, ty) {
        (Single::First, Ty::Pair(first, _)) => Ok(Some(copy(alloc, first.get())?)),
        (Single::Second, Ty::Pair(_, second)) => Ok(Some(copy(alloc, second.get())?)),
        (Single::Field(place), Ty::Rec(fields)) => field_type(alloc, place, fields),
        (Single::Wrap, ty) => Ok(Some(option_of(alloc, copy(alloc, ty)?)?)),
        (Single::Lower, Ty::Text) => Ok(Some(Ty::Text)),
        (Single::Words(most), Ty::Text) => Ok(Some(list_of(alloc, Ty::Text, most)?)),
        (Single::Has, Ty::Opt(_)) | (Single::Not, Ty::Bool) => Ok(Some(Ty::Bool)),
        (Single::Len, Ty::Text | Ty::List { .. })
        | (Single::Minus | Single::Over(_) | Single::Modulo(_), Ty::Int) => Ok(Some(Ty::Int)),
        _ => Ok(None),
    }
}

/// The type of what is done with two values.
pub fn two_type(alloc: Global, op: Double, left: &Ty, right: &Ty) -> Result<Option<Ty>, NoMemory>
    ensures { IfOk result (λ t.
        option_map type_of t ≡ spec.two_type op (type_of left.now) (type_of right.now)) }
{
    match (op, left, right) {
        (Double::Pair, left, right) => {
            let former = copy(alloc, left)?;
            match copy(alloc, right) {
                Ok(second) => Ok(Some(pair_of(alloc, former, second)?)),
                Err(refused) => {
                    drop(former);
                    Err(refused)
                }
            }
        }
        (Double::Orelse, Ty::Opt(part), other) => join(alloc, part.get(), other),
        (Double::Starts, Ty::Text, Ty::Text) | (Double::Or | Double::And, Ty::Bool, Ty::Bool) => {
            Ok(Some(Ty::Bool))
        }
        (Double::Compare(_), left, right) => compared(alloc, left, right),
        (Double::Plus | Double::Minus | Double::Times, Ty::Int, Ty::Int) => Ok(Some(Ty::Int)),
        _ => Ok(None),
    }
}

fn compared(alloc: Global, left: &Ty, right: &Ty) -> Result<Option<Ty>, NoMemory>
    ensures { IfOk result (λ t.
        option_map type_of t ≡ spec.compared (type_of left.now) (type_of right.now)) }
{
    match join(alloc, left, right)? {
        Some(both) => {
            drop(both);
            Ok(Some(Ty::Bool))
        }
        None => Ok(None),
    }
}

/// The type of a choice between two values.
pub fn if_type(alloc: Global, test: &Ty, yes: &Ty, no: &Ty) -> Result<Option<Ty>, NoMemory>
    ensures { IfOk result (λ t. option_map type_of t
        ≡ spec.if_type (type_of test.now) (type_of yes.now) (type_of no.now)) }
{
    match test {
        Ty::Bool => join(alloc, yes, no),
        _ => Ok(None),
    }
}

/// The type of a list of parts of these types.
pub fn list_type(alloc: Global, parts: &[Ty]) -> Result<Option<Ty>, NoMemory>
    ensures { IfOk result (λ t. option_map type_of t ≡ spec.list_type (map type_of parts.now)) }
{
    let [first, rest @ ..] = parts else {
        return Ok(None);
    };
    let Some(joint) = join_all(alloc, copy(alloc, first)?, rest)? else {
        return Ok(None);
    };
    Ok(Some(list_of(alloc, joint, parts.len() as u64)?))
}

// The join of a type with others, from the left.
fn join_all(alloc: Global, mut joint: Ty, parts: &[Ty]) -> Result<Option<Ty>, NoMemory>
    ensures { IfOk result (λ t. option_map type_of t
        ≡ spec.joined_with (type_of joint) (map type_of parts.now)) }
{
    for part in parts {
        let Some(wider) = join(alloc, &joint, part)? else {
            return Ok(None);
        };
        joint = wider;
    }
    Ok(Some(joint))
}
