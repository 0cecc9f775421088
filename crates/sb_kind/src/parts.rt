//! What an element holds. Each call gives the empty part where the element is of another variant.
ghost use Rattle.std.specs.Prelude.{◌≡◌, pos};
ghost use Rattle.sb_kind.specs.Elements.{number_in, values_in, scored_in, cells_in, registers_in, left_in, right_in, entries_in};
ghost use Rattle.sb_kind.specs.declared.agg.Agg.{Pair, Sum};

use crate::agg::{Agg, Tops};
use sb_laws::Items;
use sb_sketch::{Cells, Registers};
use sb_types::Val;
use std::alloc::Global;

/// The number of a sum, a least or a greatest.
pub fn number_of(a: &Agg) -> i64
    ensures { result ≡ number_in a.now }
{
    match a {
        Agg::Sum(number) | Agg::Min(number) | Agg::Max(number) => *number,
        _ => 0,
    }
}

/// The same of an element that is given up.
pub fn into_number(a: Agg) -> i64
    ensures { result ≡ number_in a }
{
    let number = number_of(&a);
    drop(a);
    number
}

/// The values of a list or a set.
pub fn into_values(alloc: Global, a: Agg) -> Items<Val>
    ensures { result ≡ values_in a }
{
    match a {
        Agg::Concat(values) | Agg::Set(values) => values,
        _ => Items::new(alloc),
    }
}

/// The scored items of a top.
pub fn into_scored(alloc: Global, a: Agg) -> Tops
    ensures { result ≡ scored_in a }
{
    match a {
        Agg::Top(items) => items,
        _ => Items::new(alloc),
    }
}

/// The cells of a count-min sketch.
pub fn into_cells(alloc: Global, a: Agg) -> Cells
    ensures { result ≡ cells_in a }
{
    match a {
        Agg::Cms(cells) => cells,
        _ => Cells::from_vec(Vec::new(alloc)),
    }
}

/// The registers of a HyperLogLog.
pub fn into_registers(alloc: Global, a: Agg) -> Registers
    ensures { result ≡ registers_in a }
{
    match a {
        Agg::Hll(registers) => registers,
        _ => Registers::from_vec(Vec::new(alloc)),
    }
}

/// The entries of a map.
pub fn into_entries(alloc: Global, a: Agg) -> Vec<(Val, Agg)>
    ensures { result.items ≡ entries_in a }
{
    match a {
        Agg::Map(entries) => entries.into_vec(),
        _ => Vec::new(alloc),
    }
}

/// Both parts of a pair.
pub fn into_halves(a: Agg) -> (Agg, Agg)
    ensures left { result.0 ≡ left_in a }
    ensures right { result.1 ≡ right_in a }
{
    match a {
        Agg::Pair(left, right) => (left.into_inner(), right.into_inner()),
        _ => (Agg::Sum(0), Agg::Sum(0)),
    }
}

/// Takes the left part of a pair out, and leaves an empty one.
pub fn take_left(a: &mut Agg) -> Agg
    ensures part { result ≡ left_in a.old }
    ensures rest { a.old ≡ Pair (left_in a.old) (right_in a.old)
        → a.new ≡ Pair (Sum (pos 0)) (right_in a.old) }
{
    match a {
        Agg::Pair(left, _) => left.replace(Agg::Sum(0)),
        _ => Agg::Sum(0),
    }
}

/// Takes the right part of a pair out, and leaves an empty one.
pub fn take_right(a: &mut Agg) -> Agg
    ensures part { result ≡ right_in a.old }
    ensures rest { a.old ≡ Pair (left_in a.old) (right_in a.old)
        → a.new ≡ Pair (left_in a.old) (Sum (pos 0)) }
{
    match a {
        Agg::Pair(_, right) => right.replace(Agg::Sum(0)),
        _ => Agg::Sum(0),
    }
}

/// Puts both parts into a pair. An element of another variant stays.
pub fn put_parts(a: &mut Agg, left: Agg, right: Agg)
    ensures { a.old ≡ Pair (left_in a.old) (right_in a.old) → a.new ≡ Pair left right }
{
    if let Agg::Pair(left_box, right_box) = a {
        drop(left_box.replace(left));
        drop(right_box.replace(right));
    }
}

/// The value of an entry.
pub fn into_part(entry: (Val, Agg)) -> Agg
    ensures { result ≡ entry.1 }
{
    entry.1
}

/// Takes an element out, and leaves an empty one.
pub fn take(a: &mut Agg) -> Agg
    ensures { result ≡ a.old }
{
    std::mem::replace(a, Agg::Sum(0))
}

/// Puts an element into the place of another.
pub fn put(a: &mut Agg, value: Agg)
    ensures { a.new ≡ value }
{
    *a = value;
}
