//! Additions taken back.
ghost use Rattle.std.specs.Prelude.{◌≡◌, List};
ghost use Rattle.sb_kind.specs.KindView.{monoid_of};
ghost use Rattle.sb_kind.specs.Monoids.{concats, sets, tops, sketches, registers};
ghost use Rattle.sb_kind.specs.Undoing.{TakesBack, StepBackBy, StepsBackBy};
ghost use Rattle.sb_kind.specs.declared.agg.Agg.{Agg};
ghost use Rattle.sb_types.specs.declared.values.Val.{Val};

use crate::agg::Agg;
use crate::keyed::ValueSets;
use crate::kind::Kind;
use crate::many::Many;
use crate::parts::{
    into_cells, into_entries, into_registers, into_scored, into_values, put, put_parts, take,
    take_left, take_right,
};
use crate::undone::{
    Undone, into_both, into_cells_undone, into_entry_steps, into_item_steps, into_kept,
    into_key_steps, into_registers_undone, length_of,
};
use sb_gather::{TopM, take_items_back};
use sb_laws::Undo;
use sb_sketch::{CmsM, HllM};
use sb_text::Text;
use sb_types::Val;
use std::alloc::Global;

fn undo_concat(alloc: Global, a: &mut Agg, undone: Undone)
    ensures { (earlier : Agg) → TakesBack concats undone a.old earlier → a.new ≡ earlier }
{
    let mut values = into_values(alloc, take(a));
    values.truncate(length_of(&undone));
    put(a, Agg::Concat(values));
}

fn undo_set(alloc: Global, a: &mut Agg, undone: Undone)
    ensures { (earlier : Agg) → TakesBack sets undone a.old earlier → a.new ≡ earlier }
{
    let mut values = into_values(alloc, take(a));
    take_items_back(&ValueSets, &mut values, into_key_steps(alloc, undone));
    put(a, Agg::Set(values));
}

fn undo_top(top: &TopM<Text>, alloc: Global, a: &mut Agg, undone: Undone)
    ensures { (earlier : Agg) → TakesBack (tops top.now) undone a.old earlier → a.new ≡ earlier }
{
    let mut items = into_scored(alloc, take(a));
    top.undo(&mut items, into_item_steps(alloc, undone));
    put(a, Agg::Top(items));
}

fn undo_cms(cms: &CmsM, alloc: Global, a: &mut Agg, undone: Undone)
    ensures { (earlier : Agg)
        → TakesBack (sketches cms.now.rows cms.now.width) undone a.old earlier
        → a.new ≡ earlier }
{
    let mut cells = into_cells(alloc, take(a));
    cms.undo(&mut cells, into_cells_undone(alloc, undone));
    put(a, Agg::Cms(cells));
}

fn undo_hll(hll: &HllM, alloc: Global, a: &mut Agg, undone: Undone)
    ensures { (earlier : Agg) → TakesBack (registers hll.now) undone a.old earlier
        → a.new ≡ earlier }
{
    let mut all = into_registers(alloc, take(a));
    hll.undo(&mut all, into_registers_undone(undone));
    put(a, Agg::Hll(all));
}

/// Takes an addition back. No memory is taken.
#[cycle(undo)]
pub fn undo(kind: &Kind, alloc: Global, a: &mut Agg, undone: Undone)
    ensures { (earlier : Agg) → TakesBack (monoid_of kind.now) undone a.old earlier
        → a.new ≡ earlier }
{
    match kind {
        Kind::First => drop(undone),
        Kind::Concat => undo_concat(alloc, a, undone),
        Kind::Set => undo_set(alloc, a, undone),
        Kind::Top(top) => undo_top(top, alloc, a, undone),
        Kind::Cms(cms) => undo_cms(cms, alloc, a, undone),
        Kind::Hll(hll) => undo_hll(hll, alloc, a, undone),
        Kind::Pair(left_kind, right_kind) => {
            let (first, second) = into_both(undone);
            let mut left = take_left(a);
            let mut right = take_right(a);
            undo(left_kind.get(), alloc, &mut left, first);
            undo(right_kind.get(), alloc, &mut right, second);
            put_parts(a, left, right);
        }
        Kind::Map(part) => {
            let mut list = into_entries(alloc, take(a));
            take_back(
                part.get(),
                alloc,
                &mut list,
                into_entry_steps(alloc, undone),
            );
            put(a, Agg::Map(Many::from_vec(list)));
        }
        Kind::Sum | Kind::Min | Kind::Max | Kind::Last => put(a, into_kept(undone)),
    }
}

/// Takes the steps of a map back, from the last to the first.
#[cycle(undo)]
pub fn take_back(
    part: &Kind,
    alloc: Global,
    list: &mut Vec<(Val, Agg)>,
    steps: Vec<(usize, Option<Undone>)>,
)
    ensures { (earlier : List (Val × Agg)) → StepsBackBy (monoid_of part.now) steps.items
        list.old.items earlier → list.new.items ≡ earlier }
{
    let mut steps = steps;
    while let Some(step) = steps.pop() {
        step_back(part, alloc, list, step);
    }
}

// Takes one step of a map back. One that can't have been done here changes nothing.
#[cycle(undo)]
fn step_back(part: &Kind, alloc: Global, list: &mut Vec<(Val, Agg)>, step: (usize, Option<Undone>))
    ensures { (earlier : List (Val × Agg))
        → StepBackBy (monoid_of part.now) step list.old.items earlier → list.new.items ≡ earlier }
{
    let (at, undone) = step;
    if at >= list.len() {
        return;
    }
    match undone {
        None => drop(list.remove(at)),
        Some(undone) => undo(part, alloc, &mut list[at].1, undone),
    }
}
