//! Lists of entries in rising order, and how sets and maps add to them in place.
ghost use Rattle.std.specs.Prelude.{◌≡◌, List, IfOk, OnOk, OnErr};
ghost use Rattle.std.specs.List.{AllByRecursion};
ghost use Rattle.sb_gather.specs.Entries.{AreEntries, entry_added, entries_added};
ghost use Rattle.sb_gather.specs.EntryLaws.{JoinLaws};
ghost use Rattle.sb_gather.specs.Steps.{StepBack, StepsBack};

use crate::merging::merge_entries;
use crate::place::{Ordered, place_of};
use sb_laws::{Items, NoMemory};
use std::alloc::Global;

/// How two entries that tie are joined into one: what sets and maps add by.
pub trait Joining: Ordered {
    /// What takes a join back.
    type Undone: Drop;

    /// Which entries may be joined.
    ghost valid: { Self → Self.Entry → Type 0 };

    /// What `join` gives.
    ghost joined: { Self → Self.Entry → Self.Entry → Self.Entry };

    /// The join that made the later entry is taken back to the earlier one.
    ghost takes_back: { Self → Self.Undone → Self.Entry → Self.Entry → Type 0 };

    /// Joins `b` to `a`, in place. A refusal leaves `a` as it was.
    fn join(
        &self,
        alloc: Global,
        a: &mut Self::Entry,
        b: Self::Entry,
    ) -> Result<Self::Undone, NoMemory>
        requires left { valid self.now a.old }
        requires right { valid self.now b }
        ensures ok { OnOk result (a.new ≡ joined self.now a.old b) }
        ensures undone { IfOk result (λ undone. takes_back self.now undone a.new a.old) }
        ensures err { OnErr result (a.new ≡ a.old) };

    /// Takes a join back. No memory is taken.
    fn unjoin(&self, a: &mut Self::Entry, undone: Self::Undone)
        ensures { (earlier : Self.Entry) → takes_back self.now undone a.old earlier
            → a.new ≡ earlier };

    ghost laws: { (m : Self) → JoinLaws (Self.order m) (valid m) (joined m) };
}

/// The steps of an addition, in the order in which they were done: the place of each, with what takes a join back,
/// and none for an entry that came in.
pub type Steps<U> = Vec<(usize, Option<U>)>;

/// Adds an entry in place: a search, and a join or one move of what stands behind.
pub fn add_entry<D: Joining>(
    d: &D,
    alloc: Global,
    list: &mut Vec<D::Entry>,
    entry: D::Entry,
) -> Result<(usize, Option<D::Undone>), NoMemory>
    requires list { AreEntries (D.Ordered.order d.now) (D.valid d.now) list.old.items }
    requires entry { D.valid d.now entry }
    ensures ok { OnOk result (list.new.items
        ≡ entry_added (D.Ordered.order d.now) (D.joined d.now) entry list.old.items) }
    ensures undone { IfOk result (λ step. StepBack (D.takes_back d.now) step list.new.items
        list.old.items) }
    ensures err { OnErr result (list.new.items ≡ list.old.items) }
{
    match place_of(d, list.as_slice(), &entry) {
        Ok(at) => {
            let undone = d.join(alloc, &mut list[at], entry)?;
            Ok((at, Some(undone)))
        }
        Err(at) => {
            list.insert(at, entry)?;
            Ok((at, None))
        }
    }
}

// Adds an entry, and notes the step.
fn add_next<D: Joining>(
    d: &D,
    alloc: Global,
    list: &mut Vec<D::Entry>,
    steps: &mut Steps<D::Undone>,
    entry: D::Entry,
) -> Result<(), NoMemory>
    requires list { AreEntries (D.Ordered.order d.now) (D.valid d.now) list.old.items }
    requires entry { D.valid d.now entry }
    ensures ok { OnOk result (list.new.items
        ≡ entry_added (D.Ordered.order d.now) (D.joined d.now) entry list.old.items) }
    ensures undone { OnOk result ((first : List D.Entry)
        → StepsBack (StepBack (D.takes_back d.now)) steps.old.items list.old.items first
        → StepsBack (StepBack (D.takes_back d.now)) steps.new.items list.new.items first) }
    ensures err { OnErr result ((list.new.items ≡ list.old.items)
        × (steps.new.items ≡ steps.old.items)) }
{
    steps.reserve(1)?;
    let step = add_entry(d, alloc, list, entry)?;
    steps.push(step)?;
    Ok(())
}

// Takes one step back. One that can't have been done here changes nothing.
fn step_back<D: Joining>(d: &D, list: &mut Vec<D::Entry>, step: (usize, Option<D::Undone>))
    ensures { (earlier : List D.Entry) → StepBack (D.takes_back d.now) step list.old.items earlier
        → list.new.items ≡ earlier }
{
    let (at, undone) = step;
    if at >= list.len() {
        return;
    }
    match undone {
        None => drop(list.remove(at)),
        Some(undone) => d.unjoin(&mut list[at], undone),
    }
}

/// Takes an addition back, from its last step to its first. No memory is taken.
pub fn take_back<D: Joining>(d: &D, list: &mut Vec<D::Entry>, steps: Steps<D::Undone>)
    ensures { (earlier : List D.Entry) → StepsBack (StepBack (D.takes_back d.now)) steps.items
        list.old.items earlier → list.new.items ≡ earlier }
{
    let mut steps = steps;
    while let Some(step) = steps.pop() {
        step_back(d, list, step);
    }
}

/// Adds the entries of `more`, each in its place, and says how to take them back. A refusal leaves the list as it was.
pub fn add_entries<D: Joining>(
    d: &D,
    alloc: Global,
    list: &mut Vec<D::Entry>,
    more: Vec<D::Entry>,
) -> Result<Steps<D::Undone>, NoMemory>
    requires list { AreEntries (D.Ordered.order d.now) (D.valid d.now) list.old.items }
    requires more { AllByRecursion (D.valid d.now) more.items }
    ensures ok { OnOk result (list.new.items
        ≡ entries_added (D.Ordered.order d.now) (D.joined d.now) list.old.items more.items) }
    ensures undone { IfOk result (λ steps. StepsBack (StepBack (D.takes_back d.now)) steps.items
        list.new.items list.old.items) }
    ensures err { OnErr result (list.new.items ≡ list.old.items) }
{
    let mut steps = Vec::with_capacity(alloc, more.len())?;
    for entry in more {
        if let Err(refused) = add_next(d, alloc, list, &mut steps, entry) {
            take_back(d, list, steps);
            return Err(refused);
        }
    }
    Ok(steps)
}

/// From this many entries on, one merge of both lists is cheaper than a search and a move for each.
pub const MANY: usize = 8;

// Adds the entries of `more`, by the cheaper way, and says how to take them back.
fn add_recorded<D: Joining>(
    d: &D,
    alloc: Global,
    list: &mut Vec<D::Entry>,
    more: Vec<D::Entry>,
) -> Result<Steps<D::Undone>, NoMemory>
    requires list { AreEntries (D.Ordered.order d.now) (D.valid d.now) list.old.items }
    requires more { AreEntries (D.Ordered.order d.now) (D.valid d.now) more.items }
    ensures ok { OnOk result (list.new.items
        ≡ entries_added (D.Ordered.order d.now) (D.joined d.now) list.old.items more.items) }
    ensures undone { IfOk result (λ steps. StepsBack (StepBack (D.takes_back d.now)) steps.items
        list.new.items list.old.items) }
    ensures err { OnErr result (list.new.items ≡ list.old.items) }
{
    if more.len() < MANY {
        return add_entries(d, alloc, list, more);
    }
    merge_entries(d, alloc, list, more)
}

// Adds the entries of `more`. A single one takes no memory but its own room.
fn add_all<D: Joining>(
    d: &D,
    alloc: Global,
    list: &mut Vec<D::Entry>,
    more: Vec<D::Entry>,
) -> Result<(), NoMemory>
    requires list { AreEntries (D.Ordered.order d.now) (D.valid d.now) list.old.items }
    requires more { AreEntries (D.Ordered.order d.now) (D.valid d.now) more.items }
    ensures ok { OnOk result (list.new.items
        ≡ entries_added (D.Ordered.order d.now) (D.joined d.now) list.old.items more.items) }
    ensures err { OnErr result (list.new.items ≡ list.old.items) }
{
    if more.len() > 1 {
        let _ = add_recorded(d, alloc, list, more)?;
        return Ok(());
    }
    let mut more = more;
    if let Some(entry) = more.pop() {
        let _ = add_entry(d, alloc, list, entry)?;
    }
    Ok(())
}

/// Adds the entries of `b` to those of `a`, in the room of `a`. A refusal leaves `a` as it was.
pub fn plus_items<D: Joining>(
    d: &D,
    alloc: Global,
    a: &mut Items<D::Entry>,
    b: Items<D::Entry>,
) -> Result<(), NoMemory>
    requires left { AreEntries (D.Ordered.order d.now) (D.valid d.now) a.old }
    requires right { AreEntries (D.Ordered.order d.now) (D.valid d.now) b }
    ensures ok { OnOk result (a.new ≡ entries_added (D.Ordered.order d.now) (D.joined d.now) a.old
        b) }
    ensures err { OnErr result (a.new ≡ a.old) }
{
    let mut list = a.take();
    let done = add_all(d, alloc, &mut list, b.into_vec());
    *a = Items::from_vec(list);
    done
}

/// Does what `plus_items` does, and says how to take it back.
pub fn plus_items_recorded<D: Joining>(
    d: &D,
    alloc: Global,
    a: &mut Items<D::Entry>,
    b: Items<D::Entry>,
) -> Result<Steps<D::Undone>, NoMemory>
    requires left { AreEntries (D.Ordered.order d.now) (D.valid d.now) a.old }
    requires right { AreEntries (D.Ordered.order d.now) (D.valid d.now) b }
    ensures ok { OnOk result (a.new ≡ entries_added (D.Ordered.order d.now) (D.joined d.now) a.old
        b) }
    ensures undone { IfOk result (λ steps. StepsBack (StepBack (D.takes_back d.now)) steps.items
        a.new a.old) }
    ensures err { OnErr result (a.new ≡ a.old) }
{
    let mut list = a.take();
    let done = add_recorded(d, alloc, &mut list, b.into_vec());
    *a = Items::from_vec(list);
    done
}

/// Takes an addition back. No memory is taken.
pub fn take_items_back<D: Joining>(d: &D, a: &mut Items<D::Entry>, steps: Steps<D::Undone>)
    ensures { (earlier : List D.Entry) → StepsBack (StepBack (D.takes_back d.now)) steps.items a.old
        earlier → a.new ≡ earlier }
{
    let mut list = a.take();
    take_back(d, &mut list, steps);
    *a = Items::from_vec(list);
}
