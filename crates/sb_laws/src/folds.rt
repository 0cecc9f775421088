//! Sums of lists by a dictionary: from left to right, by halves, and in any order.
ghost use Rattle.std.specs.Prelude.{◌≡◌, ◌<◌, ◌≤◌, List, length, take, drop, IsPermutation, IfOk, Some};
ghost use Rattle.std.specs.List.{AllByRecursion, flat_map};
ghost use Rattle.std.specs.Vec.Iter.{into_iter_items};
ghost use Rattle.sb_laws.specs.Sums.{sum_of, both_sums, IsValid};

use crate::{Commuting, NoMemory, Semigroup};
use std::alloc::Global;
use std::vec::IntoIter;

/// The sum of the list from left to right, and none exactly where it is empty.
pub fn fold_list<M: Semigroup>(
    alloc: Global,
    m: &M,
    list: Vec<M::El>,
) -> Result<Option<M::El>, NoMemory>
    requires { AllByRecursion (M.valid m.now) list.items }
    ensures { IfOk result (λ sum. sum ≡ sum_of (M.add m.now) list.items) }
{
    let mut items = list.into_iter();
    let Some(first) = items.next() else {
        return Ok(None);
    };
    let mut sum = first;
    for item in items {
        m.plus(alloc, &mut sum, item)?;
    }
    Ok(Some(sum))
}

/// The same sum, by halves: each element takes part in at most log n sums.
pub fn fold_tree<M: Semigroup>(
    alloc: Global,
    m: &M,
    list: Vec<M::El>,
) -> Result<Option<M::El>, NoMemory>
    requires { AllByRecursion (M.valid m.now) list.items }
    ensures { IfOk result (λ sum. sum ≡ sum_of (M.add m.now) list.items) }
{
    let count = list.len();
    if count == 0 {
        return Ok(None);
    }
    let mut items = list.into_iter();
    let sum = fold_next(alloc, m, &mut items, count)?;
    Ok(Some(sum))
}

// The sum of the next elements, which are taken from the iterator.
fn fold_next<M: Semigroup>(
    alloc: Global,
    m: &M,
    items: &mut IntoIter<M::El>,
    count: usize,
) -> Result<M::El, NoMemory>
    requires some { 0 < count }
    requires there { count ≤ length (into_iter_items items.old) }
    requires valid { AllByRecursion (M.valid m.now) (into_iter_items items.old) }
    ensures sum { IfOk result (λ sum. Some sum
        ≡ sum_of (M.add m.now) (take count (into_iter_items items.old))) }
    ensures rest { IfOk result (λ _. into_iter_items items.new
        ≡ drop count (into_iter_items items.old)) }
{
    if count == 1 {
        return match items.next() {
            Some(item) => Ok(item),
            None => unreachable!(),
        };
    }
    let mut sum = fold_next(alloc, m, items, count / 2)?;
    let right = fold_next(alloc, m, items, count - count / 2)?;
    m.plus(alloc, &mut sum, right)?;
    Ok(sum)
}

/// The sum of all elements, list by list. Every list with the same elements as often has this sum.
pub fn regroup<M: Commuting>(
    alloc: Global,
    m: &M,
    lists: Vec<Vec<M::El>>,
) -> Result<Option<M::El>, NoMemory>
    requires { AllByRecursion (M.valid m.now) (flat_map (λ list. list.items) lists.items) }
    ensures value { IfOk result (λ sum. sum
        ≡ sum_of (M.add m.now) (flat_map (λ list. list.items) lists.items)) }
    ensures any_order { IfOk result (λ sum. (xs : List M.El)
        → IsPermutation (flat_map (λ list. list.items) lists.items) xs
        → sum ≡ sum_of (M.add m.now) xs) }
{
    fold_lists(alloc, m, lists)
}

fn fold_lists<M: Semigroup>(
    alloc: Global,
    m: &M,
    lists: Vec<Vec<M::El>>,
) -> Result<Option<M::El>, NoMemory>
    requires { AllByRecursion (M.valid m.now) (flat_map (λ list. list.items) lists.items) }
    ensures { IfOk result (λ sum. sum ≡ sum_of (M.add m.now)
        (flat_map (λ list. list.items) lists.items)) }
{
    let mut sum = None;
    for list in lists {
        let part = fold_list(alloc, m, list)?;
        sum = add_both(alloc, m, sum, part)?;
    }
    Ok(sum)
}

fn add_both<M: Semigroup>(
    alloc: Global,
    m: &M,
    left: Option<M::El>,
    right: Option<M::El>,
) -> Result<Option<M::El>, NoMemory>
    requires left { IsValid (M.valid m.now) left }
    requires right { IsValid (M.valid m.now) right }
    ensures { IfOk result (λ sum. sum ≡ both_sums (M.add m.now) left right) }
{
    match (left, right) {
        (Some(mut sum), Some(part)) => {
            m.plus(alloc, &mut sum, part)?;
            Ok(Some(sum))
        }
        (Some(sum), None) => Ok(Some(sum)),
        (None, right) => Ok(right),
    }
}
