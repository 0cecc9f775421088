//! Types that agree, and their joins.
ghost use Rattle.std.specs.Prelude.{◌≡◌, option_map, IfOk, IfSome};
ghost use Rattle.sb_terms.specs.Agreement as spec;
ghost use Rattle.sb_types.specs.TyView.{type_of, view_fields};

use crate::copying::pair;
use sb_text::NoMemory;
use sb_types::{Field, Ty};
use sqlite_items::{Boxed, Items};
use std::alloc::Global;

/// The join of two types, and none where they don't agree.
#[cycle(join)]
pub fn join(alloc: Global, left: &Ty, right: &Ty) -> Result<Option<Ty>, NoMemory>
    ensures { IfOk result (λ joint.
        option_map type_of joint ≡ spec.joined (type_of left.now) (type_of right.now)) }
{
    match (left, right) {
        (Ty::Int, Ty::Int) => Ok(Some(Ty::Int)),
        (Ty::Text, Ty::Text) => Ok(Some(Ty::Text)),
        (Ty::Bool, Ty::Bool) => Ok(Some(Ty::Bool)),
        (Ty::Pair(a, b), Ty::Pair(c, d)) => {
            let Some(first) = join(alloc, a.get(), c.get())? else {
                return Ok(None);
            };
            match join(alloc, b.get(), d.get()) {
                Ok(Some(second)) => Ok(Some(pair(alloc, first, second)?)),
                Ok(None) => {
                    drop(first);
                    Ok(None)
                }
                Err(refused) => {
                    drop(first);
                    Err(refused)
                }
            }
        }
        (Ty::Opt(a), Ty::Opt(b)) => {
            let Some(part) = join(alloc, a.get(), b.get())? else {
                return Ok(None);
            };
            Ok(Some(Ty::Opt(Boxed::new(alloc, part)?)))
        }
        (Ty::List { of: a, most: m }, Ty::List { of: b, most: n }) => {
            let Some(of) = join(alloc, a.get(), b.get())? else {
                return Ok(None);
            };
            Ok(Some(Ty::List {
                of: Boxed::new(alloc, of)?,
                most: (*m).max(*n),
            }))
        }
        (Ty::Rec(a), Ty::Rec(b)) => {
            let Some(fields) = join_fields(alloc, a.as_slice(), b.as_slice())? else {
                return Ok(None);
            };
            Ok(Some(Ty::Rec(Items::from_vec(fields))))
        }
        _ => Ok(None),
    }
}

#[cycle(join)]
fn join_fields(
    alloc: Global,
    left: &[Field],
    right: &[Field],
) -> Result<Option<Vec<Field>>, NoMemory>
    ensures { IfOk result (λ joint. option_map (λ fields. view_fields fields.items) joint
        ≡ spec.fields_joined (view_fields left.now) (view_fields right.now)) }
{
    let mut fields = Vec::with_capacity(alloc, left.len())?;
    for (at, a) in left.iter().enumerate() {
        let Some(b) = right.get(at) else {
            return Ok(None);
        };
        let Some(joint) = join_field(alloc, a, b)? else {
            return Ok(None);
        };
        fields.push(joint)?;
    }
    if left.len() < right.len() {
        return Ok(None);
    }
    Ok(Some(fields))
}

#[cycle(join)]
fn join_field(alloc: Global, left: &Field, right: &Field) -> Result<Option<Field>, NoMemory>
    ensures name { IfOk result (λ joint. IfSome joint (λ f. f.name ≡ left.now.name)) }
    ensures ty { IfOk result (λ joint. option_map (λ f. type_of f.ty) joint
        ≡ spec.same_named left.now.name right.now.name
        (spec.joined (type_of left.now.ty) (type_of right.now.ty))) }
{
    if left.name.as_bytes() != right.name.as_bytes() {
        return Ok(None);
    }
    let Some(ty) = join(alloc, &left.ty, &right.ty)? else {
        return Ok(None);
    };
    let name = left.name.copy(alloc)?;
    Ok(Some(Field { name, ty }))
}
