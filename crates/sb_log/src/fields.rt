//! The fields of a record.
ghost use Rattle.std.specs.Prelude.{◌≡◌, ◌+◌, Err, IfOk, map, option_map};
ghost use Rattle.sb_check.specs.Log.{fields_from, fields_in, value_in};
ghost use Rattle.sb_check.specs.declared.log.LineKind.TheVariants.{BadField};
ghost use Rattle.sb_types.specs.TyView.{type_of, view_fields};
ghost use Rattle.sb_types.specs.ValView.{value_of};
ghost use Rattle.sb_log.specs.Reading.{ReadsLine};

use crate::line_error::LineError;
use sb_check::LineKind;
use sb_service::read_field;
use sb_text::{Columns, NoMemory};
use sb_types::{Field, Ty, Val, Vals};
use sqlite_items::Items;
use std::alloc::Global;

/// The fields that stand in the columns, which are taken; there have to be as many.
#[tactic(auto, using(crate::proofs::FieldColumns::count_of))]
pub fn read_fields(
    alloc: Global,
    fields: &[Field],
    columns: &mut Columns<'_>,
) -> Result<Vals, LineError>
    ensures { ReadsLine (map value_of) (fields_in (view_fields fields.now) columns.old) result }
{
    if columns.left() != fields.len() {
        return Err(LineError::Bad(LineKind::FieldCount));
    }
    read_each(alloc, fields, columns)
}

// A field in each column; where there are more columns, the rest stays.
fn read_each(alloc: Global, fields: &[Field], columns: &mut Columns<'_>) -> Result<Vals, LineError>
    ensures { ReadsLine (map value_of) (fields_from 1 (view_fields fields.now) columns.old) result }
{
    let mut values = Vec::with_capacity(alloc, fields.len())?;
    for (at, field) in fields.iter().enumerate() {
        let Some(column) = columns.next() else {
            return Err(LineError::Bad(LineKind::FieldCount));
        };
        let Some(value) = read_value(alloc, &field.ty, column)? else {
            return Err(bad_field(at));
        };
        values.push(value).map_err(|_| LineError::NoMemory)?;
    }
    Ok(Items::from_vec(values))
}

#[tactic(auto, using(crate::proofs::FieldColumns::same_value))]
fn read_value(alloc: Global, ty: &Ty, bytes: &[u8]) -> Result<Option<Val>, NoMemory>
    ensures { IfOk result (λ value. option_map value_of value
        ≡ value_in (type_of ty.now) bytes.now) }
{
    read_field(alloc, ty, bytes)
}

// The field behind this many is bad. No memory holds 2^32 fields.
fn bad_field(before: usize) -> LineError
    ensures { ReadsLine (map value_of) (Err (BadField (before + 1))) (Err result) }
{
    match u32::try_from(before) {
        Ok(number) if number < u32::MAX => LineError::Bad(LineKind::BadField { field: number + 1 }),
        _ => LineError::NoMemory,
    }
}
