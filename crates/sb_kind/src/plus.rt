//! Elements added in place, for good: nothing is kept that would take an addition back, but for the left part of a pair
//! while its right part may still be refused.
ghost use Rattle.std.specs.Prelude.{◌≡◌, true, IsOk, OnOk, OnErr};
ghost use Rattle.sb_kind.specs.Elements.{IsOf, AreEntriesOf, plus, entry_plus, entries_plus};
ghost use Rattle.sb_kind.specs.KindView.{monoid_of};
ghost use Rattle.sb_kind.specs.Monoids.{concats, sets, tops, sketches, registers};
ghost use Rattle.sb_kind.specs.Monoids.{IsPair, first_part, second_part};
ghost use Rattle.sb_kind.specs.Undoing.{is_infallible};

use crate::adding::{add, add_all};
use crate::agg::Agg;
use crate::keyed::{ByKey, ValueSets};
use crate::kind::Kind;
use crate::many::Many;
use crate::parts::{
    into_cells, into_entries, into_halves, into_number, into_part, into_registers, into_scored,
    into_values, number_of, put, put_parts, take, take_left, take_right,
};
use crate::undoing::undo;
use sb_gather::{TopM, place_of, plus_items};
use sb_laws::{NoMemory, Semigroup};
use sb_sketch::{CmsM, HllM};
use sb_text::Text;
use sb_types::Val;
use std::alloc::Global;

// Whether adding takes no memory, and so can't be refused.
fn is_infallible(kind: &Kind) -> bool
    ensures { result ≡ is_infallible (monoid_of kind.now) }
{
    match kind {
        Kind::Sum | Kind::Min | Kind::Max | Kind::First | Kind::Last => true,
        Kind::Pair(left, right) => is_infallible(left.get()) && is_infallible(right.get()),
        _ => false,
    }
}

fn plus_concat(alloc: Global, a: &mut Agg, b: Agg) -> Result<(), NoMemory>
    requires left { IsOf concats a.old }
    requires right { IsOf concats b }
    ensures ok { OnOk result (a.new ≡ plus concats a.old b) }
    ensures err { OnErr result (a.new ≡ a.old) }
{
    let mut values = into_values(alloc, take(a));
    let done = values.append(into_values(alloc, b));
    put(a, Agg::Concat(values));
    done
}

fn plus_set(alloc: Global, a: &mut Agg, b: Agg) -> Result<(), NoMemory>
    requires left { IsOf sets a.old }
    requires right { IsOf sets b }
    ensures ok { OnOk result (a.new ≡ plus sets a.old b) }
    ensures err { OnErr result (a.new ≡ a.old) }
{
    let mut values = into_values(alloc, take(a));
    let done = plus_items(&ValueSets, alloc, &mut values, into_values(alloc, b));
    put(a, Agg::Set(values));
    done
}

fn plus_top(top: &TopM<Text>, alloc: Global, a: &mut Agg, b: Agg) -> Result<(), NoMemory>
    requires left { IsOf (tops top.now) a.old }
    requires right { IsOf (tops top.now) b }
    ensures ok { OnOk result (a.new ≡ plus (tops top.now) a.old b) }
    ensures err { OnErr result (a.new ≡ a.old) }
{
    let mut items = into_scored(alloc, take(a));
    let done = top.plus(alloc, &mut items, into_scored(alloc, b));
    put(a, Agg::Top(items));
    done
}

fn plus_cms(cms: &CmsM, alloc: Global, a: &mut Agg, b: Agg) -> Result<(), NoMemory>
    requires left { IsOf (sketches cms.now.rows cms.now.width) a.old }
    requires right { IsOf (sketches cms.now.rows cms.now.width) b }
    ensures ok { OnOk result (a.new ≡ plus (sketches cms.now.rows cms.now.width) a.old b) }
    ensures err { OnErr result (a.new ≡ a.old) }
{
    let mut cells = into_cells(alloc, take(a));
    let done = cms.plus(alloc, &mut cells, into_cells(alloc, b));
    put(a, Agg::Cms(cells));
    done
}

fn plus_hll(hll: &HllM, alloc: Global, a: &mut Agg, b: Agg) -> Result<(), NoMemory>
    requires left { IsOf (registers hll.now) a.old }
    requires right { IsOf (registers hll.now) b }
    ensures ok { OnOk result (a.new ≡ plus (registers hll.now) a.old b) }
    ensures err { OnErr result (a.new ≡ a.old) }
{
    let mut all = into_registers(alloc, take(a));
    let done = hll.plus(alloc, &mut all, into_registers(alloc, b));
    put(a, Agg::Hll(all));
    done
}

/// Adds `b` on the right of `a`, in place. A refusal leaves `a` as it was.
#[cycle(plus)]
pub fn plus(kind: &Kind, alloc: Global, a: &mut Agg, b: Agg) -> Result<(), NoMemory>
    requires left { IsOf (monoid_of kind.now) a.old }
    requires right { IsOf (monoid_of kind.now) b }
    ensures ok { OnOk result (a.new ≡ plus (monoid_of kind.now) a.old b) }
    ensures err { OnErr result (a.new ≡ a.old) }
    ensures infallible { is_infallible (monoid_of kind.now) ≡ true → IsOk result }
{
    match kind {
        Kind::Sum => {
            let sum = number_of(a).wrapping_add(into_number(b));
            put(a, Agg::Sum(sum));
            Ok(())
        }
        Kind::Min => {
            let least = number_of(a).min(into_number(b));
            put(a, Agg::Min(least));
            Ok(())
        }
        Kind::Max => {
            let greatest = number_of(a).max(into_number(b));
            put(a, Agg::Max(greatest));
            Ok(())
        }
        Kind::First => {
            drop(b);
            Ok(())
        }
        Kind::Last => {
            put(a, b);
            Ok(())
        }
        Kind::Concat => plus_concat(alloc, a, b),
        Kind::Set => plus_set(alloc, a, b),
        Kind::Top(top) => plus_top(top, alloc, a, b),
        Kind::Cms(cms) => plus_cms(cms, alloc, a, b),
        Kind::Hll(hll) => plus_hll(hll, alloc, a, b),
        Kind::Pair(..) => plus_pair(kind, alloc, a, b),
        Kind::Map(part) => {
            let mut list = into_entries(alloc, take(a));
            let done = plus_entries(part.get(), alloc, &mut list, into_entries(alloc, b));
            put(a, Agg::Map(Many::from_vec(list)));
            done
        }
    }
}

// Adds both parts of a pair.
#[cycle(plus)]
fn plus_pair(kind: &Kind, alloc: Global, a: &mut Agg, b: Agg) -> Result<(), NoMemory>
    requires pair { IsPair (monoid_of kind.now) }
    requires left { IsOf (monoid_of kind.now) a.old }
    requires right { IsOf (monoid_of kind.now) b }
    ensures ok { OnOk result (a.new ≡ plus (monoid_of kind.now) a.old b) }
    ensures err { OnErr result (a.new ≡ a.old) }
    ensures infallible { is_infallible (monoid_of kind.now) ≡ true → IsOk result }
{
    let (x, y) = into_halves(b);
    let mut left = take_left(a);
    let mut right = take_right(a);
    let done = plus_both(kind, alloc, &mut left, &mut right, x, y);
    put_parts(a, left, right);
    done
}

// Adds the parts, the left first. What takes it back is kept only where the right may be refused.
#[cycle(plus)]
fn plus_both(
    kind: &Kind,
    alloc: Global,
    left: &mut Agg,
    right: &mut Agg,
    x: Agg,
    y: Agg,
) -> Result<(), NoMemory>
    requires pair { IsPair (monoid_of kind.now) }
    requires left { IsOf (first_part (monoid_of kind.now)) left.old
        × IsOf (first_part (monoid_of kind.now)) x }
    requires right { IsOf (second_part (monoid_of kind.now)) right.old
        × IsOf (second_part (monoid_of kind.now)) y }
    ensures left { OnOk result (left.new ≡ plus (first_part (monoid_of kind.now)) left.old x) }
    ensures right { OnOk result (right.new ≡ plus (second_part (monoid_of kind.now)) right.old y) }
    ensures err { OnErr result ((left.new ≡ left.old) × (right.new ≡ right.old)) }
    ensures infallible { is_infallible (first_part (monoid_of kind.now)) ≡ true
        → is_infallible (second_part (monoid_of kind.now)) ≡ true → IsOk result }
{
    let Kind::Pair(left_kind, right_kind) = kind else {
        unreachable!();
    };
    if is_infallible(right_kind.get()) {
        plus(left_kind.get(), alloc, left, x)?;
        return plus(right_kind.get(), alloc, right, y);
    }
    let first = add(left_kind.get(), alloc, left, x)?;
    match plus(right_kind.get(), alloc, right, y) {
        Ok(()) => {
            drop(first);
            Ok(())
        }
        Err(refused) => {
            undo(left_kind.get(), alloc, left, first);
            Err(refused)
        }
    }
}

// Adds the entries of `more`. A single one takes no memory but its own room.
#[cycle(plus)]
fn plus_entries(
    part: &Kind,
    alloc: Global,
    list: &mut Vec<(Val, Agg)>,
    more: Vec<(Val, Agg)>,
) -> Result<(), NoMemory>
    requires list { AreEntriesOf (monoid_of part.now) list.old.items }
    requires more { AreEntriesOf (monoid_of part.now) more.items }
    ensures ok { OnOk result (list.new.items
        ≡ entries_plus (monoid_of part.now) list.old.items more.items) }
    ensures err { OnErr result (list.new.items ≡ list.old.items) }
{
    if more.len() > 1 {
        let _ = add_all(part, alloc, list, more)?;
        return Ok(());
    }
    let mut more = more;
    if let Some(entry) = more.pop() {
        plus_entry(part, alloc, list, entry)?;
    }
    Ok(())
}

// Adds an entry in place: a search, and a sum or one move of what stands behind.
#[cycle(plus)]
fn plus_entry(
    part: &Kind,
    alloc: Global,
    list: &mut Vec<(Val, Agg)>,
    entry: (Val, Agg),
) -> Result<(), NoMemory>
    requires list { AreEntriesOf (monoid_of part.now) list.old.items }
    requires entry { IsOf (monoid_of part.now) entry.1 }
    ensures ok { OnOk result (list.new.items
        ≡ entry_plus (monoid_of part.now) entry list.old.items) }
    ensures err { OnErr result (list.new.items ≡ list.old.items) }
{
    match place_of(&ByKey, list.as_slice(), &entry) {
        Ok(at) => plus(part, alloc, &mut list[at].1, into_part(entry)),
        Err(at) => {
            list.insert(at, entry)?;
            Ok(())
        }
    }
}
