//! Two lists of entries in rising order merged in place.
ghost use Rattle.std.specs.Prelude.{◌≡◌, ◌<◌, ◌≤◌, [], Some, slice_get, List, length, take, drop, IfOk, OnOk, OnErr};
ghost use Rattle.std.specs.List.{AllByRecursion};
ghost use Rattle.sb_gather.specs.Entries.{AreEntries, entry_added, entries_added};
ghost use Rattle.sb_gather.specs.Merges.{turned, IsAfter, IsNext, IsNotBefore};
ghost use Rattle.sb_gather.specs.Steps.{StepBack, StepsBack};

use crate::entries::{Joining, Steps, take_back};
use crate::place::Ordered;
use sb_laws::NoMemory;
use std::alloc::Global;
use std::cmp::Ordering;
use std::collections::VecDeque;

// An entry of the ring, lent.
fn entry_at<T>(ring: &VecDeque<T>, at: usize) -> &T
    requires { at < length ring.now.items }
    ensures { slice_get ring.now.items at ≡ Some result.now }
{
    &ring[at]
}

// How many of the first `left` are before the entry, and whether the next of them ties with it.
fn count_before<O: Ordered>(
    order: &O,
    ring: &VecDeque<O::Entry>,
    left: usize,
    entry: &O::Entry,
) -> (usize, bool)
    requires { left ≤ length ring.now.items }
    ensures within { result.0 ≤ left }
    ensures before { IsAfter (O.order order.now) entry.now (take result.0 ring.now.items) }
    ensures next { IsNext (O.order order.now) entry.now result.1
        (drop result.0 (take left ring.now.items)) }
{
    for at in 0..left {
        match order.compare(entry, entry_at(ring, at)) {
            Ordering::Less => return (at, false),
            Ordering::Equal => return (at, true),
            Ordering::Greater => {}
        }
    }
    (left, false)
}

/// Lets those pass that are before the entry; says whether the next ties with it. The first `left` of the ring are left to
/// pass, and those behind have passed.
pub fn pass_before<O: Ordered>(
    order: &O,
    ring: &mut VecDeque<O::Entry>,
    left: &mut usize,
    entry: &O::Entry,
) -> bool
    requires within { left.old ≤ length ring.old.items }
    requires passed { IsAfter (O.order order.now) entry.now (drop left.old ring.old.items) }
    ensures list { turned left.new ring.new.items ≡ turned left.old ring.old.items }
    ensures within { left.new ≤ length ring.new.items }
    ensures passed { IsAfter (O.order order.now) entry.now (drop left.new ring.new.items) }
    ensures next { IsNext (O.order order.now) entry.now result (take left.new ring.new.items) }
{
    let (before, ties) = count_before(order, ring, *left, entry);
    ring.rotate_left(before);
    *left -= before;
    ties
}

// Merges one entry, which is after all that has passed. What has passed since isn't after it.
fn merge_one<D: Joining>(
    d: &D,
    alloc: Global,
    ring: &mut VecDeque<D::Entry>,
    left: &mut usize,
    entry: D::Entry,
) -> Result<(usize, Option<D::Undone>), NoMemory>
    requires list { AllByRecursion (D.valid d.now) (turned left.old ring.old.items) }
    requires entry { D.valid d.now entry }
    requires within { left.old ≤ length ring.old.items }
    requires passed { IsAfter (D.Ordered.order d.now) entry (drop left.old ring.old.items) }
    ensures ok { OnOk result (turned left.new ring.new.items
        ≡ entry_added (D.Ordered.order d.now) (D.joined d.now) entry
        (turned left.old ring.old.items)) }
    ensures undone { IfOk result (λ step. StepBack (D.takes_back d.now) step
        (turned left.new ring.new.items) (turned left.old ring.old.items)) }
    ensures err { OnErr result (turned left.new ring.new.items ≡ turned left.old ring.old.items) }
    ensures within { left.new ≤ length ring.new.items }
    ensures passed { OnOk result (IsNotBefore (D.Ordered.order d.now) entry
        (drop left.new ring.new.items)) }
{
    let ties = pass_before(d, ring, left, &entry);
    let at = ring.len() - *left;
    if ties {
        let undone = d.join(alloc, &mut ring[0], entry)?;
        return Ok((at, Some(undone)));
    }
    ring.push_back(entry)?;
    Ok((at, None))
}

/// Adds the entries of `more` by one merge of the two lists, in place where the list has room for both, and says how to take
/// them back. A refusal leaves the list as it was.
pub fn merge_entries<D: Joining>(
    d: &D,
    alloc: Global,
    list: &mut Vec<D::Entry>,
    more: Vec<D::Entry>,
) -> Result<Steps<D::Undone>, NoMemory>
    requires list { AreEntries (D.Ordered.order d.now) (D.valid d.now) list.old.items }
    requires more { AreEntries (D.Ordered.order d.now) (D.valid d.now) more.items }
    ensures ok { OnOk result (list.new.items
        ≡ entries_added (D.Ordered.order d.now) (D.joined d.now) list.old.items more.items) }
    ensures undone { IfOk result (λ steps. StepsBack (StepBack (D.takes_back d.now)) steps.items
        list.new.items list.old.items) }
    ensures err { OnErr result (list.new.items ≡ list.old.items) }
{
    let mut steps = Vec::with_capacity(alloc, more.len())?;
    list.reserve(more.len())?;
    let mut ring = VecDeque::from_vec(std::mem::replace(list, Vec::new(alloc)));
    let mut left = ring.len();
    let done = merge_all(d, alloc, &mut ring, &mut left, &mut steps, more);
    ring.rotate_left(left);
    *list = ring.into_vec();
    if let Err(refused) = done {
        take_back(d, list, steps);
        return Err(refused);
    }
    Ok(steps)
}

// Merges entry after entry, and notes the steps. At a refusal the ring is as the steps noted have left it.
fn merge_all<D: Joining>(
    d: &D,
    alloc: Global,
    ring: &mut VecDeque<D::Entry>,
    left: &mut usize,
    steps: &mut Steps<D::Undone>,
    more: Vec<D::Entry>,
) -> Result<(), NoMemory>
    requires list { AreEntries (D.Ordered.order d.now) (D.valid d.now)
        (turned left.old ring.old.items) }
    requires more { AreEntries (D.Ordered.order d.now) (D.valid d.now) more.items }
    requires within { left.old ≤ length ring.old.items }
    requires nothing { drop left.old ring.old.items ≡ [] }
    ensures ok { OnOk result (turned left.new ring.new.items
        ≡ entries_added (D.Ordered.order d.now) (D.joined d.now) (turned left.old ring.old.items)
        more.items) }
    ensures undone { (first : List D.Entry)
        → StepsBack (StepBack (D.takes_back d.now)) steps.old.items (turned left.old ring.old.items)
        first → StepsBack (StepBack (D.takes_back d.now)) steps.new.items
        (turned left.new ring.new.items) first }
    ensures within { left.new ≤ length ring.new.items }
{
    for entry in more {
        merge_next(d, alloc, ring, left, steps, entry)?;
    }
    Ok(())
}

// Merges one entry, and notes the step.
fn merge_next<D: Joining>(
    d: &D,
    alloc: Global,
    ring: &mut VecDeque<D::Entry>,
    left: &mut usize,
    steps: &mut Steps<D::Undone>,
    entry: D::Entry,
) -> Result<(), NoMemory>
    requires list { AllByRecursion (D.valid d.now) (turned left.old ring.old.items) }
    requires entry { D.valid d.now entry }
    requires within { left.old ≤ length ring.old.items }
    requires passed { IsAfter (D.Ordered.order d.now) entry (drop left.old ring.old.items) }
    ensures ok { OnOk result (turned left.new ring.new.items
        ≡ entry_added (D.Ordered.order d.now) (D.joined d.now) entry
        (turned left.old ring.old.items)) }
    ensures undone { (first : List D.Entry)
        → StepsBack (StepBack (D.takes_back d.now)) steps.old.items (turned left.old ring.old.items)
        first → StepsBack (StepBack (D.takes_back d.now)) steps.new.items
        (turned left.new ring.new.items) first }
    ensures within { left.new ≤ length ring.new.items }
    ensures passed { OnOk result (IsNotBefore (D.Ordered.order d.now) entry
        (drop left.new ring.new.items)) }
{
    steps.reserve(1)?;
    let step = merge_one(d, alloc, ring, left, entry)?;
    steps.push(step)?;
    Ok(())
}
