//! Two ranked lists merged into the first k of both.
ghost use Rattle.std.specs.Prelude.{◌≡◌, ◌<◌, ◌≤◌, ◌+◌, ◌++◌, true, false, [], List, length, take, min, option_to_list, IfOk, OnOk, OnErr, MatchOption};
ghost use Rattle.std.specs.Vec.{vec_capacity};
ghost use Rattle.sb_gather.specs.Merges.{IsNext, IsNotBefore};
ghost use Rattle.sb_gather.specs.Steps.{TopStepBack, StepsBack};
ghost use Rattle.sb_gather.specs.Tops.{placed, first_of_both, IsRanked};

use crate::entries::Steps;
use crate::place::Ordered;
use sb_laws::NoMemory;
use std::alloc::Global;
use std::cmp::Ordering;
use std::collections::VecDeque;

// Lets the first of those left pass, unless the entry is before it; says whether one passed.
fn pass_one<O: Ordered>(
    order: &O,
    passed: &mut Vec<O::Entry>,
    left: &mut VecDeque<O::Entry>,
    entry: &O::Entry,
) -> bool
    requires room { length passed.old.items + length left.old.items ≤ vec_capacity passed.old }
    requires passed { IsNotBefore (O.order order.now) entry.now passed.old.items }
    ensures list { passed.new.items ++ left.new.items ≡ passed.old.items ++ left.old.items }
    ensures passed { IsNotBefore (O.order order.now) entry.now passed.new.items }
    ensures next { result ≡ false → IsNext (O.order order.now) entry.now false left.new.items }
    ensures fewer { result ≡ true → length left.new.items < length left.old.items }
    ensures capacity { vec_capacity passed.new ≡ vec_capacity passed.old }
{
    let Some(first) = left.front() else {
        return false;
    };
    if let Ordering::Less = order.compare(entry, first) {
        return false;
    }
    if let Some(first) = left.pop_front() {
        passed.push_reserved(first);
    }
    true
}

// Lets those pass that the entry isn't before.
fn pass_all<O: Ordered>(
    order: &O,
    passed: &mut Vec<O::Entry>,
    left: &mut VecDeque<O::Entry>,
    entry: &O::Entry,
)
    requires room { length passed.old.items + length left.old.items ≤ vec_capacity passed.old }
    requires passed { IsNotBefore (O.order order.now) entry.now passed.old.items }
    ensures list { passed.new.items ++ left.new.items ≡ passed.old.items ++ left.old.items }
    ensures passed { IsNotBefore (O.order order.now) entry.now passed.new.items }
    ensures next { IsNext (O.order order.now) entry.now false left.new.items }
    ensures capacity { vec_capacity passed.new ≡ vec_capacity passed.old }
{
    while pass_one(order, passed, left, entry) {}
}

// The last of `places` or more, taken out.
fn last_of_full<T: Drop>(places: usize, list: &mut VecDeque<T>) -> Option<T>
    requires places { 0 < places }
    requires few { length list.old.items ≤ places }
    ensures items { list.old.items ≡ list.new.items ++ option_to_list result }
    ensures out { MatchOption result (length list.new.items < places)
        (λ _. length list.new.items + 1 ≡ places) }
{
    if list.len() < places {
        return None;
    }
    list.pop_back()
}

// Merges an entry that isn't before any that has passed: it passes next, if it is one of the first, and the last falls out
// where there are `places` already. The step is noted.
fn merge_next<O: Ordered>(
    order: &O,
    places: usize,
    passed: &mut Vec<O::Entry>,
    left: &mut VecDeque<O::Entry>,
    steps: &mut Steps<O::Entry>,
    entry: O::Entry,
)
    requires few { length (passed.old.items ++ left.old.items) ≤ places }
    requires room { min places (length (passed.old.items ++ left.old.items) + 1)
        ≤ vec_capacity passed.old }
    requires passed { IsNotBefore (O.order order.now) entry passed.old.items }
    requires noted { length steps.old.items < vec_capacity steps.old }
    ensures list { passed.new.items ++ left.new.items
        ≡ take places (placed (O.order order.now) entry (passed.old.items ++ left.old.items)) }
    ensures undone { (first : List O.Entry)
        → StepsBack TopStepBack steps.old.items (passed.old.items ++ left.old.items) first
        → StepsBack TopStepBack steps.new.items (passed.new.items ++ left.new.items) first }
    ensures passed { IsNotBefore (O.order order.now) entry passed.new.items }
    ensures capacity { vec_capacity passed.new ≡ vec_capacity passed.old }
    ensures noted { (vec_capacity steps.new ≡ vec_capacity steps.old)
        × (length steps.new.items ≤ length steps.old.items + 1) }
{
    pass_all(order, passed, left, &entry);
    let at = passed.len();
    if at >= places {
        return;
    }
    let out = last_of_full(places - at, left);
    passed.push_reserved(entry);
    steps.push_reserved((at, out));
}

// Merges the entries of `more`, and notes the steps.
fn merge_all<O: Ordered>(
    order: &O,
    places: usize,
    passed: &mut Vec<O::Entry>,
    left: &mut VecDeque<O::Entry>,
    steps: &mut Steps<O::Entry>,
    more: Vec<O::Entry>,
)
    requires few { length left.old.items ≤ places }
    requires more { IsRanked (O.order order.now) more.items }
    requires room { min places (length left.old.items + length more.items)
        ≤ vec_capacity passed.old }
    requires passed { passed.old.items ≡ [] }
    requires noted { (steps.old.items ≡ []) × (length more.items ≤ vec_capacity steps.old) }
    ensures list { passed.new.items ++ left.new.items
        ≡ first_of_both (O.order order.now) places left.old.items more.items }
    ensures undone { StepsBack TopStepBack steps.new.items (passed.new.items ++ left.new.items)
        left.old.items }
    ensures room { length passed.new.items + length left.new.items ≤ vec_capacity passed.new }
{
    for entry in more {
        merge_next(order, places, passed, left, steps, entry);
    }
}

/// Puts the first `places` of both lists into `list` by one merge, and says how to take that back. A refusal leaves the list
/// as it was.
pub fn merge_ranked<O: Ordered>(
    order: &O,
    places: usize,
    alloc: Global,
    list: &mut Vec<O::Entry>,
    more: Vec<O::Entry>,
) -> Result<Steps<O::Entry>, NoMemory>
    requires few { length list.old.items ≤ places }
    requires more { IsRanked (O.order order.now) more.items }
    ensures ok { OnOk result (list.new.items
        ≡ first_of_both (O.order order.now) places list.old.items more.items) }
    ensures undone { IfOk result (λ steps. StepsBack TopStepBack steps.items list.new.items
        list.old.items) }
    ensures err { OnErr result (list.new.items ≡ list.old.items) }
{
    let mut steps = Vec::with_capacity(alloc, more.len())?;
    let mut passed = Vec::with_capacity(alloc, places.min(list.len().saturating_add(more.len())))?;
    let mut left = VecDeque::from_vec(std::mem::replace(list, Vec::new(alloc)));
    merge_all(order, places, &mut passed, &mut left, &mut steps, more);
    // There is room for what is left.
    let _ = passed.append(&mut left.into_vec());
    *list = passed;
    Ok(steps)
}
