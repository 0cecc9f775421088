//! What takes an addition back.
ghost use Rattle.std.specs.Prelude.{◌≡◌};
ghost use Rattle.sb_kind.specs.Undoing.{kept_in, length_in, key_steps, item_steps, cells_undone, registers_undone, first_in, second_in, entry_steps};

use crate::agg::Agg;
use crate::boxed::Boxed;
use crate::many::Many;
use sb_laws::Items;
use sb_sketch::{CellsUndone, RegistersUndone};
use sb_text::Text;
use std::alloc::Global;

/// What an addition keeps, so that it can be taken back: as much as it touched.
#[derive(Drop)]
pub enum Undone {
    Nothing,
    /// The earlier element.
    Kept(Agg),
    /// The earlier number of values.
    Length(usize),
    /// The steps of a set, a top or a map: the place of each, and what undoes it there. A sketch has its own.
    Keys(Items<(usize, Option<()>)>),
    Scored(Items<(usize, Option<(i64, Text)>)>),
    Cells(CellsUndone),
    Registers(RegistersUndone),
    Map(Many<(usize, Option<Undone>)>),
    Pair(Boxed<Undone>, Boxed<Undone>),
}

/// The earlier element.
pub fn into_kept(u: Undone) -> Agg
    ensures { result ≡ kept_in u }
{
    match u {
        Undone::Kept(a) => a,
        _ => Agg::Sum(0),
    }
}

/// The earlier number of values.
pub fn length_of(u: &Undone) -> usize
    ensures { result ≡ length_in u.now }
{
    match u {
        Undone::Length(count) => *count,
        _ => 0,
    }
}

/// The steps of a set.
pub fn into_key_steps(alloc: Global, u: Undone) -> Vec<(usize, Option<()>)>
    ensures { result.items ≡ key_steps u }
{
    match u {
        Undone::Keys(steps) => steps.into_vec(),
        _ => Vec::new(alloc),
    }
}

/// The steps of a top.
pub fn into_item_steps(alloc: Global, u: Undone) -> Vec<(usize, Option<(i64, Text)>)>
    ensures { result.items ≡ item_steps u }
{
    match u {
        Undone::Scored(steps) => steps.into_vec(),
        _ => Vec::new(alloc),
    }
}

/// What takes a plus of count-min sketches back.
pub fn into_cells_undone(alloc: Global, u: Undone) -> CellsUndone
    ensures { result ≡ cells_undone u }
{
    match u {
        Undone::Cells(undone) => undone,
        _ => CellsUndone::Counted(Items::new(alloc)),
    }
}

/// What takes a plus of HyperLogLogs back.
pub fn into_registers_undone(u: Undone) -> RegistersUndone
    ensures { result ≡ registers_undone u }
{
    match u {
        Undone::Registers(undone) => undone,
        _ => RegistersUndone::Nothing,
    }
}

/// The steps of a map.
pub fn into_entry_steps(alloc: Global, u: Undone) -> Vec<(usize, Option<Undone>)>
    ensures { result.items ≡ entry_steps u }
{
    match u {
        Undone::Map(steps) => steps.into_vec(),
        _ => Vec::new(alloc),
    }
}

/// What was kept for both parts of a pair.
pub fn into_both(u: Undone) -> (Undone, Undone)
    ensures left { result.0 ≡ first_in u }
    ensures right { result.1 ≡ second_in u }
{
    match u {
        Undone::Pair(left, right) => (left.into_inner(), right.into_inner()),
        _ => (Undone::Nothing, Undone::Nothing),
    }
}
