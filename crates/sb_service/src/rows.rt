//! The rows of a service, line by line.
ghost use Rattle.std.specs.Prelude.{◌≡◌, IfOk, OnOk, option_map};
ghost use Rattle.std.specs.BTreeMap.{insert_entry};
ghost use Rattle.sb_text.specs.Lines.{line_view};
ghost use Rattle.sb_types.specs.Order.{value_cmp};
ghost use Rattle.sb_types.specs.TyView.{type_of};
ghost use Rattle.sb_types.specs.ValView.{value_of};
ghost use Rattle.sb_service.specs.Adding.{line_of, row_added};
ghost use Rattle.sb_service.specs.Rows.{row_in, row_on};
ghost use Rattle.sb_service.specs.Views.{Adds, placed_value, placed_view, row_view};

use crate::ServiceError;
use crate::field::read_field;
use sb_text::{Columns, Line, NoMemory};
use sb_types::{Ty, Val};
use std::alloc::Global;
use std::collections::BTreeMap;

const LINE_LIMIT: usize = 16_384;

/// The value of a row, and the number of its line, from 1.
#[derive(Drop)]
pub struct Placed {
    pub value: Val,
    pub line: u64,
}

/// The row that a line says; `None` where it says none.
pub fn read_row(
    alloc: Global,
    key: &Ty,
    value: &Ty,
    line: Line<'_>,
) -> Result<Option<(Val, Val)>, NoMemory>
    ensures { IfOk result (λ row. option_map row_view row
        ≡ row_on (type_of key.now) (type_of value.now) (line_view line.entry)) }
{
    if line.bytes.len() > LINE_LIMIT || !line.ended {
        return Ok(None);
    }
    let mut columns = Columns::new(line.bytes);
    read_columns(alloc, key, value, &mut columns)
}

// The row in the columns, which are taken.
fn read_columns(
    alloc: Global,
    key: &Ty,
    value: &Ty,
    columns: &mut Columns<'_>,
) -> Result<Option<(Val, Val)>, NoMemory>
    ensures { IfOk result (λ row. option_map row_view row
        ≡ row_in (type_of key.now) (type_of value.now) columns.old) }
{
    let (Some(first), Some(second), None) = (columns.next(), columns.next(), columns.next()) else {
        return Ok(None);
    };
    let Some(key) = read_field(alloc, key, first)? else {
        return Ok(None);
    };
    let Some(value) = read_field(alloc, value, second)? else {
        return Ok(None);
    };
    Ok(Some((key, value)))
}

/// Takes in the row of a line, where no earlier one has its key.
pub fn add_row(
    rows: &mut BTreeMap<Val, Placed>,
    row: (Val, Val),
    line: u64,
) -> Result<(), ServiceError>
    ensures { Adds (row_added line (placed_view rows.old) (row_view row)) rows.new result }
{
    if let Some(first) = line_of(rows, &row.0) {
        return Err(ServiceError::TwiceKey { line, first });
    }
    let (key, value) = row;
    put_row(rows, key, Placed { value, line })?;
    Ok(())
}

#[tactic(auto, using(crate::proofs::Views::placed_more))]
fn put_row(rows: &mut BTreeMap<Val, Placed>, key: Val, row: Placed) -> Result<(), NoMemory>
    ensures { OnOk result (placed_view rows.new
        ≡ insert_entry value_cmp (placed_view rows.old) (value_of key) (placed_value row)) }
{
    rows.insert(key, row)?;
    Ok(())
}

// The line of the row that has this key.
#[tactic(auto, using(crate::proofs::Views::placed_found))]
fn line_of(rows: &BTreeMap<Val, Placed>, key: &Val) -> Option<u64>
    ensures { result ≡ line_of (value_of key.now) (placed_view rows.now) }
{
    match rows.get(key) {
        Some(row) => Some(row.line),
        None => None,
    }
}
