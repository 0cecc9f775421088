//! Copies of types.
ghost use Rattle.std.specs.Prelude.{◌≡◌, IfOk};
ghost use Rattle.sb_types.specs.declared.types.Ty.TheVariants.{Pair};

use sb_text::NoMemory;
use sb_types::{Field, Ty};
use sqlite_items::{Boxed, Items};
use std::alloc::Global;

/// An equal type.
#[cycle(copy)]
pub fn copy(alloc: Global, ty: &Ty) -> Result<Ty, NoMemory>
    ensures { IfOk result (λ copied. copied ≡ ty.now) }
{
    match ty {
        Ty::Int => Ok(Ty::Int),
        Ty::Text => Ok(Ty::Text),
        Ty::Bool => Ok(Ty::Bool),
        Ty::Pair(left, right) => {
            let left = copy(alloc, left.get())?;
            match copy(alloc, right.get()) {
                Ok(right) => pair(alloc, left, right),
                Err(refused) => {
                    drop(left);
                    Err(refused)
                }
            }
        }
        Ty::Opt(part) => {
            let part = copy(alloc, part.get())?;
            Ok(Ty::Opt(Boxed::new(alloc, part)?))
        }
        Ty::List { of, most } => {
            let of = copy(alloc, of.get())?;
            Ok(Ty::List {
                of: Boxed::new(alloc, of)?,
                most: *most,
            })
        }
        Ty::Rec(fields) => {
            let fields = copy_fields(alloc, fields.as_slice())?;
            Ok(Ty::Rec(Items::from_vec(fields)))
        }
    }
}

/// The type of pairs of these types.
pub fn pair(alloc: Global, first: Ty, second: Ty) -> Result<Ty, NoMemory>
    ensures { IfOk result (λ t. t ≡ Pair first second) }
{
    let first = match Boxed::new(alloc, first) {
        Ok(first) => first,
        Err(refused) => {
            drop(second);
            return Err(refused);
        }
    };
    match Boxed::new(alloc, second) {
        Ok(second) => Ok(Ty::Pair(first, second)),
        Err(refused) => {
            drop(first);
            Err(refused)
        }
    }
}

/// Equal fields.
#[cycle(copy)]
pub fn copy_fields(alloc: Global, fields: &[Field]) -> Result<Vec<Field>, NoMemory>
    ensures { IfOk result (λ copied. copied.items ≡ fields.now) }
{
    let mut copied = Vec::with_capacity(alloc, fields.len())?;
    for field in fields {
        copied.push(copy_field(alloc, field)?)?;
    }
    Ok(copied)
}

#[cycle(copy)]
fn copy_field(alloc: Global, field: &Field) -> Result<Field, NoMemory>
    ensures { IfOk result (λ copied. copied ≡ field.now) }
{
    let name = field.name.copy(alloc)?;
    let ty = copy(alloc, &field.ty)?;
    Ok(Field { name, ty })
}
