//! Copies of elements.
ghost use Rattle.std.specs.Prelude.{◌≡◌, [], ◌∷◌, ◌++◌, IfOk, OnOk};

use crate::agg::{Agg, Tops, pair_of};
use crate::many::Many;
use sb_laws::{Items, NoMemory};
use sb_types::Val;
use std::alloc::Global;

/// An equal element.
pub fn copy(alloc: Global, a: &Agg) -> Result<Agg, NoMemory>
    ensures { IfOk result (λ copied. copied ≡ a.now) }
{
    match a {
        Agg::Sum(number) => Ok(Agg::Sum(*number)),
        Agg::Min(number) => Ok(Agg::Min(*number)),
        Agg::Max(number) => Ok(Agg::Max(*number)),
        Agg::First(value) => Ok(Agg::First(sb_types::copy(alloc, value)?)),
        Agg::Last(value) => Ok(Agg::Last(sb_types::copy(alloc, value)?)),
        Agg::Concat(values) => Ok(Agg::Concat(copy_values(alloc, values)?)),
        Agg::Set(values) => Ok(Agg::Set(copy_values(alloc, values)?)),
        Agg::Top(items) => Ok(Agg::Top(copy_items(alloc, items)?)),
        Agg::Cms(cells) => Ok(Agg::Cms(cells.copy(alloc)?)),
        Agg::Hll(registers) => Ok(Agg::Hll(registers.copy(alloc)?)),
        Agg::Pair(left, right) => {
            let left = copy(alloc, left.get())?;
            match copy(alloc, right.get()) {
                Ok(right) => pair_of(alloc, left, right),
                Err(refused) => {
                    drop(left);
                    Err(refused)
                }
            }
        }
        Agg::Map(entries) => {
            let mut copied = Vec::with_capacity(alloc, entries.len())?;
            for entry in entries.as_slice() {
                let part = match copy(alloc, &entry.1) {
                    Ok(part) => part,
                    Err(refused) => {
                        drop(copied);
                        return Err(refused);
                    }
                };
                if let Err(refused) = push_entry(alloc, &entry.0, part, &mut copied) {
                    drop(copied);
                    return Err(refused);
                }
            }
            Ok(Agg::Map(Many::from_vec(copied)))
        }
    }
}

// Appends a part at an equal key.
fn push_entry(
    alloc: Global,
    key: &Val,
    part: Agg,
    out: &mut Vec<(Val, Agg)>,
) -> Result<(), NoMemory>
    ensures { OnOk result (out.new.items ≡ out.old.items ++ (key.now, part) ∷ []) }
{
    match sb_types::copy(alloc, key) {
        Ok(key) => {
            out.push((key, part))?;
            Ok(())
        }
        Err(refused) => {
            drop(part);
            Err(refused)
        }
    }
}

fn copy_values(alloc: Global, values: &Items<Val>) -> Result<Items<Val>, NoMemory>
    ensures { IfOk result (λ copied. copied ≡ values.now) }
{
    let mut copied = Vec::with_capacity(alloc, values.len())?;
    for value in values.as_slice() {
        copied.push(sb_types::copy(alloc, value)?)?;
    }
    Ok(Items::from_vec(copied))
}

fn copy_items(alloc: Global, items: &Tops) -> Result<Tops, NoMemory>
    ensures { IfOk result (λ copied. copied ≡ items.now) }
{
    let mut copied = Vec::with_capacity(alloc, items.len())?;
    for item in items.as_slice() {
        copied.push((item.0, item.1.copy(alloc)?))?;
    }
    Ok(Items::from_vec(copied))
}
