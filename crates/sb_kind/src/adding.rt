//! Elements added in place, with what takes an addition back.
ghost use Rattle.std.specs.Prelude.{◌≡◌, ◌≤◌, [], List, length, drop, IfOk, OnOk, OnErr};
ghost use Rattle.std.specs.List.{AllByRecursion};
ghost use Rattle.sb_gather.specs.Maps.{by_key};
ghost use Rattle.sb_gather.specs.Merges.{turned, IsAfter, IsNotBefore};
ghost use Rattle.sb_kind.specs.Elements.{IsOf, AreEntriesOf, plus, entry_plus, entries_plus};
ghost use Rattle.sb_kind.specs.Elements.{val_cmp};
ghost use Rattle.sb_kind.specs.KindView.{monoid_of};
ghost use Rattle.sb_kind.specs.Monoids.{concats, sets, tops, sketches, registers};
ghost use Rattle.sb_kind.specs.Monoids.{IsPair, first_part, second_part};
ghost use Rattle.sb_kind.specs.Undoing.{TakesBack, StepBackBy, StepsBackBy};
ghost use Rattle.sb_kind.specs.Undoing.{kept_in, first_in, second_in};
ghost use Rattle.sb_kind.specs.declared.agg.Agg.{Agg};
ghost use Rattle.sb_types.specs.declared.values.Val.{Val};

use crate::agg::Agg;
use crate::boxed::Boxed;
use crate::keyed::{ByKey, ValueSets};
use crate::kind::Kind;
use crate::many::Many;
use crate::parts::{
    into_cells, into_entries, into_halves, into_number, into_part, into_registers, into_scored,
    into_values, number_of, put, put_parts, take, take_left, take_right,
};
use crate::undoing::{take_back, undo};
use crate::undone::Undone;
use sb_gather::{MANY, TopM, pass_before, place_of, plus_items_recorded};
use sb_laws::{Items, NoMemory, Undo};
use sb_sketch::{CmsM, HllM};
use sb_text::Text;
use sb_types::Val;
use std::alloc::Global;
use std::collections::VecDeque;

// Puts the sum into the place of the left element, and keeps that.
fn put_kept(a: &mut Agg, sum: Agg) -> Undone
    ensures sum { a.new ≡ sum }
    ensures kept { kept_in result ≡ a.old }
{
    Undone::Kept(std::mem::replace(a, sum))
}

fn add_concat(alloc: Global, a: &mut Agg, b: Agg) -> Result<Undone, NoMemory>
    requires left { IsOf concats a.old }
    requires right { IsOf concats b }
    ensures ok { OnOk result (a.new ≡ plus concats a.old b) }
    ensures undone { IfOk result (λ undone. TakesBack concats undone a.new a.old) }
    ensures err { OnErr result (a.new ≡ a.old) }
{
    let mut values = into_values(alloc, take(a));
    let count = values.len();
    let done = values.append(into_values(alloc, b));
    put(a, Agg::Concat(values));
    done?;
    Ok(Undone::Length(count))
}

fn add_set(alloc: Global, a: &mut Agg, b: Agg) -> Result<Undone, NoMemory>
    requires left { IsOf sets a.old }
    requires right { IsOf sets b }
    ensures ok { OnOk result (a.new ≡ plus sets a.old b) }
    ensures undone { IfOk result (λ undone. TakesBack sets undone a.new a.old) }
    ensures err { OnErr result (a.new ≡ a.old) }
{
    let mut values = into_values(alloc, take(a));
    let done = plus_items_recorded(&ValueSets, alloc, &mut values, into_values(alloc, b));
    put(a, Agg::Set(values));
    Ok(Undone::Keys(Items::from_vec(done?)))
}

fn add_top(top: &TopM<Text>, alloc: Global, a: &mut Agg, b: Agg) -> Result<Undone, NoMemory>
    requires left { IsOf (tops top.now) a.old }
    requires right { IsOf (tops top.now) b }
    ensures ok { OnOk result (a.new ≡ plus (tops top.now) a.old b) }
    ensures undone { IfOk result (λ undone. TakesBack (tops top.now) undone a.new a.old) }
    ensures err { OnErr result (a.new ≡ a.old) }
{
    let mut items = into_scored(alloc, take(a));
    let done = top.plus_recorded(alloc, &mut items, into_scored(alloc, b));
    put(a, Agg::Top(items));
    Ok(Undone::Scored(Items::from_vec(done?)))
}

fn add_cms(cms: &CmsM, alloc: Global, a: &mut Agg, b: Agg) -> Result<Undone, NoMemory>
    requires left { IsOf (sketches cms.now.rows cms.now.width) a.old }
    requires right { IsOf (sketches cms.now.rows cms.now.width) b }
    ensures ok { OnOk result (a.new ≡ plus (sketches cms.now.rows cms.now.width) a.old b) }
    ensures undone { IfOk result
        (λ undone. TakesBack (sketches cms.now.rows cms.now.width) undone a.new a.old) }
    ensures err { OnErr result (a.new ≡ a.old) }
{
    let mut cells = into_cells(alloc, take(a));
    let done = cms.plus_recorded(alloc, &mut cells, into_cells(alloc, b));
    put(a, Agg::Cms(cells));
    Ok(Undone::Cells(done?))
}

fn add_hll(hll: &HllM, alloc: Global, a: &mut Agg, b: Agg) -> Result<Undone, NoMemory>
    requires left { IsOf (registers hll.now) a.old }
    requires right { IsOf (registers hll.now) b }
    ensures ok { OnOk result (a.new ≡ plus (registers hll.now) a.old b) }
    ensures undone { IfOk result (λ undone. TakesBack (registers hll.now) undone a.new a.old) }
    ensures err { OnErr result (a.new ≡ a.old) }
{
    let mut all = into_registers(alloc, take(a));
    let done = hll.plus_recorded(alloc, &mut all, into_registers(alloc, b));
    put(a, Agg::Hll(all));
    Ok(Undone::Registers(done?))
}

/// Adds `b` on the right of `a`, in place, and keeps what takes it back. A refusal leaves `a` as it was.
#[cycle(add)]
pub fn add(kind: &Kind, alloc: Global, a: &mut Agg, b: Agg) -> Result<Undone, NoMemory>
    requires left { IsOf (monoid_of kind.now) a.old }
    requires right { IsOf (monoid_of kind.now) b }
    ensures ok { OnOk result (a.new ≡ plus (monoid_of kind.now) a.old b) }
    ensures undone { IfOk result (λ undone. TakesBack (monoid_of kind.now) undone a.new a.old) }
    ensures err { OnErr result (a.new ≡ a.old) }
{
    match kind {
        Kind::Sum => {
            let sum = number_of(a).wrapping_add(into_number(b));
            Ok(put_kept(a, Agg::Sum(sum)))
        }
        Kind::Min => {
            let least = number_of(a).min(into_number(b));
            Ok(put_kept(a, Agg::Min(least)))
        }
        Kind::Max => {
            let greatest = number_of(a).max(into_number(b));
            Ok(put_kept(a, Agg::Max(greatest)))
        }
        Kind::First => {
            drop(b);
            Ok(Undone::Nothing)
        }
        Kind::Last => Ok(put_kept(a, b)),
        Kind::Concat => add_concat(alloc, a, b),
        Kind::Set => add_set(alloc, a, b),
        Kind::Top(top) => add_top(top, alloc, a, b),
        Kind::Cms(cms) => add_cms(cms, alloc, a, b),
        Kind::Hll(hll) => add_hll(hll, alloc, a, b),
        Kind::Pair(..) => add_pair(kind, alloc, a, b),
        Kind::Map(part) => {
            let mut list = into_entries(alloc, take(a));
            let done = add_all(part.get(), alloc, &mut list, into_entries(alloc, b));
            put(a, Agg::Map(Many::from_vec(list)));
            Ok(Undone::Map(Many::from_vec(done?)))
        }
    }
}

// Adds both parts of a pair.
#[cycle(add)]
fn add_pair(kind: &Kind, alloc: Global, a: &mut Agg, b: Agg) -> Result<Undone, NoMemory>
    requires pair { IsPair (monoid_of kind.now) }
    requires left { IsOf (monoid_of kind.now) a.old }
    requires right { IsOf (monoid_of kind.now) b }
    ensures ok { OnOk result (a.new ≡ plus (monoid_of kind.now) a.old b) }
    ensures undone { IfOk result (λ undone. TakesBack (monoid_of kind.now) undone a.new a.old) }
    ensures err { OnErr result (a.new ≡ a.old) }
{
    let first = Boxed::new(alloc, Undone::Nothing)?;
    let second = Boxed::new(alloc, Undone::Nothing)?;
    let (x, y) = into_halves(b);
    let mut left = take_left(a);
    let mut right = take_right(a);
    let done = add_both(kind, alloc, &mut left, &mut right, x, y);
    put_parts(a, left, right);
    let (left_undone, right_undone) = done?;
    Ok(pair_undone(first, second, left_undone, right_undone))
}

// What was kept for both parts, in boxes that are there.
fn pair_undone(first: Boxed<Undone>, second: Boxed<Undone>, left: Undone, right: Undone) -> Undone
    ensures first { first_in result ≡ left }
    ensures second { second_in result ≡ right }
{
    let (mut first, mut second) = (first, second);
    drop(first.replace(left));
    drop(second.replace(right));
    Undone::Pair(first, second)
}

// Adds the parts, the left first. It is taken back where the right is refused.
#[cycle(add)]
fn add_both(
    kind: &Kind,
    alloc: Global,
    left: &mut Agg,
    right: &mut Agg,
    x: Agg,
    y: Agg,
) -> Result<(Undone, Undone), NoMemory>
    requires pair { IsPair (monoid_of kind.now) }
    requires left { IsOf (first_part (monoid_of kind.now)) left.old
        × IsOf (first_part (monoid_of kind.now)) x }
    requires right { IsOf (second_part (monoid_of kind.now)) right.old
        × IsOf (second_part (monoid_of kind.now)) y }
    ensures left { OnOk result (left.new ≡ plus (first_part (monoid_of kind.now)) left.old x) }
    ensures right { OnOk result (right.new ≡ plus (second_part (monoid_of kind.now)) right.old y) }
    ensures undone { IfOk result
        (λ undone. TakesBack (first_part (monoid_of kind.now)) undone.0 left.new left.old
        × TakesBack (second_part (monoid_of kind.now)) undone.1 right.new right.old) }
    ensures err { OnErr result ((left.new ≡ left.old) × (right.new ≡ right.old)) }
{
    let Kind::Pair(left_kind, right_kind) = kind else {
        unreachable!();
    };
    let first = add(left_kind.get(), alloc, left, x)?;
    match add(right_kind.get(), alloc, right, y) {
        Ok(second) => Ok((first, second)),
        Err(refused) => {
            undo(left_kind.get(), alloc, left, first);
            Err(refused)
        }
    }
}

/// Adds the entries of `more` by the cheaper way, and keeps the steps. A refusal leaves the list as it was.
#[cycle(add)]
pub fn add_all(
    part: &Kind,
    alloc: Global,
    list: &mut Vec<(Val, Agg)>,
    more: Vec<(Val, Agg)>,
) -> Result<Vec<(usize, Option<Undone>)>, NoMemory>
    requires list { AreEntriesOf (monoid_of part.now) list.old.items }
    requires more { AreEntriesOf (monoid_of part.now) more.items }
    ensures ok { OnOk result (list.new.items
        ≡ entries_plus (monoid_of part.now) list.old.items more.items) }
    ensures undone { IfOk result
        (λ steps. StepsBackBy (monoid_of part.now) steps.items list.new.items list.old.items) }
    ensures err { OnErr result (list.new.items ≡ list.old.items) }
{
    if more.len() < MANY {
        return add_entries(part, alloc, list, more);
    }
    merge_entries(part, alloc, list, more)
}

// Adds the entries of `more`, each in its place, and keeps the steps. A refusal leaves the list as it was.
#[cycle(add)]
fn add_entries(
    part: &Kind,
    alloc: Global,
    list: &mut Vec<(Val, Agg)>,
    more: Vec<(Val, Agg)>,
) -> Result<Vec<(usize, Option<Undone>)>, NoMemory>
    requires list { AreEntriesOf (monoid_of part.now) list.old.items }
    requires more { AllByRecursion (λ entry. IsOf (monoid_of part.now) entry.1) more.items }
    ensures ok { OnOk result (list.new.items
        ≡ entries_plus (monoid_of part.now) list.old.items more.items) }
    ensures undone { IfOk result
        (λ steps. StepsBackBy (monoid_of part.now) steps.items list.new.items list.old.items) }
    ensures err { OnErr result (list.new.items ≡ list.old.items) }
{
    let mut steps = Vec::with_capacity(alloc, more.len())?;
    for entry in more {
        if let Err(refused) = add_next(part, alloc, list, &mut steps, entry) {
            take_back(part, alloc, list, steps);
            return Err(refused);
        }
    }
    Ok(steps)
}

// Adds an entry, and notes the step.
#[cycle(add)]
fn add_next(
    part: &Kind,
    alloc: Global,
    list: &mut Vec<(Val, Agg)>,
    steps: &mut Vec<(usize, Option<Undone>)>,
    entry: (Val, Agg),
) -> Result<(), NoMemory>
    requires list { AreEntriesOf (monoid_of part.now) list.old.items }
    requires entry { IsOf (monoid_of part.now) entry.1 }
    ensures ok { OnOk result (list.new.items
        ≡ entry_plus (monoid_of part.now) entry list.old.items) }
    ensures undone { OnOk result ((first : List (Val × Agg))
        → StepsBackBy (monoid_of part.now) steps.old.items list.old.items first
        → StepsBackBy (monoid_of part.now) steps.new.items list.new.items first) }
    ensures err { OnErr result ((list.new.items
        ≡ list.old.items) × (steps.new.items ≡ steps.old.items)) }
{
    steps.reserve(1)?;
    let step = add_entry(part, alloc, list, entry)?;
    steps.push(step)?;
    Ok(())
}

// Adds an entry in place: a search, and a sum or one move of what stands behind.
#[cycle(add)]
fn add_entry(
    part: &Kind,
    alloc: Global,
    list: &mut Vec<(Val, Agg)>,
    entry: (Val, Agg),
) -> Result<(usize, Option<Undone>), NoMemory>
    requires list { AreEntriesOf (monoid_of part.now) list.old.items }
    requires entry { IsOf (monoid_of part.now) entry.1 }
    ensures ok { OnOk result (list.new.items
        ≡ entry_plus (monoid_of part.now) entry list.old.items) }
    ensures undone { IfOk result
        (λ step. StepBackBy (monoid_of part.now) step list.new.items list.old.items) }
    ensures err { OnErr result (list.new.items ≡ list.old.items) }
{
    match place_of(&ByKey, list.as_slice(), &entry) {
        Ok(at) => {
            let undone = add(part, alloc, &mut list[at].1, into_part(entry))?;
            Ok((at, Some(undone)))
        }
        Err(at) => {
            list.insert(at, entry)?;
            Ok((at, None))
        }
    }
}

// Adds the entries of `more` by one merge of the two lists, and keeps the steps. A refusal leaves the list as it was.
#[cycle(add)]
fn merge_entries(
    part: &Kind,
    alloc: Global,
    list: &mut Vec<(Val, Agg)>,
    more: Vec<(Val, Agg)>,
) -> Result<Vec<(usize, Option<Undone>)>, NoMemory>
    requires list { AreEntriesOf (monoid_of part.now) list.old.items }
    requires more { AreEntriesOf (monoid_of part.now) more.items }
    ensures ok { OnOk result (list.new.items
        ≡ entries_plus (monoid_of part.now) list.old.items more.items) }
    ensures undone { IfOk result
        (λ steps. StepsBackBy (monoid_of part.now) steps.items list.new.items list.old.items) }
    ensures err { OnErr result (list.new.items ≡ list.old.items) }
{
    let mut steps = Vec::with_capacity(alloc, more.len())?;
    list.reserve(more.len())?;
    let mut ring = VecDeque::from_vec(std::mem::replace(list, Vec::new(alloc)));
    let mut left = ring.len();
    let done = merge_all(part, alloc, &mut ring, &mut left, &mut steps, more);
    ring.rotate_left(left);
    *list = ring.into_vec();
    if let Err(refused) = done {
        take_back(part, alloc, list, steps);
        return Err(refused);
    }
    Ok(steps)
}

// Merges entry after entry, and notes the steps. At a refusal the ring is as the steps noted have left it.
#[cycle(add)]
fn merge_all(
    part: &Kind,
    alloc: Global,
    ring: &mut VecDeque<(Val, Agg)>,
    left: &mut usize,
    steps: &mut Vec<(usize, Option<Undone>)>,
    more: Vec<(Val, Agg)>,
) -> Result<(), NoMemory>
    requires list { AreEntriesOf (monoid_of part.now) (turned left.old ring.old.items) }
    requires more { AreEntriesOf (monoid_of part.now) more.items }
    requires within { left.old ≤ length ring.old.items }
    requires nothing { drop left.old ring.old.items ≡ [] }
    ensures ok { OnOk result (turned left.new ring.new.items
        ≡ entries_plus (monoid_of part.now) (turned left.old ring.old.items) more.items) }
    ensures undone { (first : List (Val × Agg))
        → StepsBackBy (monoid_of part.now) steps.old.items (turned left.old ring.old.items) first
        → StepsBackBy (monoid_of part.now) steps.new.items (turned left.new ring.new.items) first }
    ensures within { left.new ≤ length ring.new.items }
{
    for entry in more {
        merge_next(part, alloc, ring, left, steps, entry)?;
    }
    Ok(())
}

// Merges one entry, which is after all that has passed, and notes the step. What has passed since isn't after it.
#[cycle(add)]
fn merge_next(
    part: &Kind,
    alloc: Global,
    ring: &mut VecDeque<(Val, Agg)>,
    left: &mut usize,
    steps: &mut Vec<(usize, Option<Undone>)>,
    entry: (Val, Agg),
) -> Result<(), NoMemory>
    requires list { AllByRecursion (λ entry. IsOf (monoid_of part.now) entry.1)
        (turned left.old ring.old.items) }
    requires entry { IsOf (monoid_of part.now) entry.1 }
    requires within { left.old ≤ length ring.old.items }
    requires passed { IsAfter (by_key val_cmp) entry (drop left.old ring.old.items) }
    ensures ok { OnOk result (turned left.new ring.new.items
        ≡ entry_plus (monoid_of part.now) entry (turned left.old ring.old.items)) }
    ensures undone { (first : List (Val × Agg))
        → StepsBackBy (monoid_of part.now) steps.old.items (turned left.old ring.old.items) first
        → StepsBackBy (monoid_of part.now) steps.new.items (turned left.new ring.new.items) first }
    ensures within { left.new ≤ length ring.new.items }
    ensures passed { OnOk result
        (IsNotBefore (by_key val_cmp) entry (drop left.new ring.new.items)) }
{
    steps.reserve(1)?;
    let ties = pass_before(&ByKey, ring, left, &entry);
    let at = ring.len() - *left;
    if ties {
        let undone = add(part, alloc, &mut ring[0].1, into_part(entry))?;
        steps.push_reserved((at, Some(undone)));
        return Ok(());
    }
    ring.push_back(entry)?;
    steps.push_reserved((at, None));
    Ok(())
}
