//! Copies of types and values.
ghost use Rattle.std.specs.Prelude.{◌≡◌, IfOk};

use crate::values::Val;
use sb_text::NoMemory;
use sqlite_items::{Boxed, Items};
use std::alloc::Global;

/// An equal value.
#[cycle(copy)]
pub fn copy(alloc: Global, value: &Val) -> Result<Val, NoMemory>
    ensures { IfOk result (λ copied. copied ≡ value.now) }
{
    match value {
        Val::Int(number) => Ok(Val::Int(*number)),
        Val::Text(text) => Ok(Val::Text(text.copy(alloc)?)),
        Val::Bool(truth) => Ok(Val::Bool(*truth)),
        Val::Pair(left, right) => {
            let left = copy(alloc, left.get())?;
            let right = copy(alloc, right.get())?;
            Ok(Val::Pair(Boxed::new(alloc, left)?, Boxed::new(alloc, right)?))
        }
        Val::Opt(None) => Ok(Val::Opt(None)),
        Val::Opt(Some(inside)) => {
            let inside = copy(alloc, inside.get())?;
            Ok(Val::Opt(Some(Boxed::new(alloc, inside)?)))
        }
        Val::List(parts) => {
            let parts = copy_all(alloc, parts.as_slice())?;
            Ok(Val::List(Items::from_vec(parts)))
        }
        Val::Rec(parts) => {
            let parts = copy_all(alloc, parts.as_slice())?;
            Ok(Val::Rec(Items::from_vec(parts)))
        }
    }
}

#[cycle(copy)]
fn copy_all(alloc: Global, values: &[Val]) -> Result<Vec<Val>, NoMemory>
    ensures { IfOk result (λ copied. copied.items ≡ values.now) }
{
    let mut copied = Vec::with_capacity(alloc, values.len())?;
    for value in values {
        copied.push(copy(alloc, value)?)?;
    }
    Ok(copied)
}
