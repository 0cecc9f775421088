//! Maximal ranges, each by its first and its last number: where a range goes among them, and how it
//! is put.
ghost use Rattle.std.specs.Prelude.{◌≡◌, ◌||◌, ℕ, ◌+◌, ◌-◌, ◌^◌, ◌<◌, ◌≤◌, min, max, ◌∷◌, ◌++◌, IfOk, length, take, drop, vec_len, vec_capacity};
ghost use Rattle.std.specs.List.{AllByRecursion};
ghost use Rattle.sb_text.specs.MaximalRanges.{IsRange, AreMaximal, numbers_of, is_within, is_covered, first_at, last_at, IsPlace};

use crate::NoMemory;
use std::alloc::Global;

// Puts a range into maximal ranges: those that it touches or overlaps become one range with it.
pub(crate) fn put_range(ranges: &mut Vec<(u64, u64)>, range: (u64, u64))
    requires room { vec_len ranges.old < vec_capacity ranges.old }
    requires maximal { AreMaximal ranges.old.items }
    requires range { IsRange range }
    ensures maximal { AreMaximal ranges.new.items }
    ensures covered { (n : ℕ) → is_covered n ranges.new.items
        ≡ (is_within n range || is_covered n ranges.old.items) }
    ensures len { vec_len ranges.new ≤ vec_len ranges.old + 1 }
    ensures capacity { vec_capacity ranges.old ≤ vec_capacity ranges.new }
{
    let (from, to) = place_of(ranges, range);
    if from < to {
        join_range(ranges, from, to, range);
    } else {
        // There is room, so that it is never refused.
        let _ = ranges.insert(from, range);
    }
}

// The ranges from one place on and before another become one range with this one.
fn join_range(ranges: &mut Vec<(u64, u64)>, from: usize, to: usize, range: (u64, u64))
    requires some { (from < to) × (to ≤ length ranges.old.items) }
    ensures items { ranges.new.items ≡ take from ranges.old.items
        ++ (
          min range.0 (first_at ranges.old.items from),
          max range.1 (last_at ranges.old.items (to - 1)),
        )
        ∷ drop to ranges.old.items }
    ensures len { vec_len ranges.new ≤ vec_len ranges.old }
    ensures capacity { vec_capacity ranges.old ≤ vec_capacity ranges.new }
{
    let one = joined(ranges, from, to, range);
    drop_between(ranges, from + 1, to);
    ranges[from] = one;
}

fn joined(ranges: &[(u64, u64)], from: usize, to: usize, range: (u64, u64)) -> (u64, u64)
    requires some { (from < to) × (to ≤ length ranges.now) }
    ensures { result
        ≡ (min range.0 (first_at ranges.now from), max range.1 (last_at ranges.now (to - 1))) }
{
    let low = range.0.min(ranges[from].0);
    (low, range.1.max(ranges[to - 1].1))
}

fn drop_between(ranges: &mut Vec<(u64, u64)>, from: usize, to: usize)
    requires { (from ≤ to) × (to ≤ length ranges.old.items) }
    ensures items { ranges.new.items
        ≡ take from ranges.old.items ++ drop to ranges.old.items }
    ensures len { vec_len ranges.new ≤ vec_len ranges.old }
    ensures capacity { vec_capacity ranges.old ≤ vec_capacity ranges.new }
{
    ranges.drain(from..to);
}

// Where a range goes: those between the two places touch or overlap it.
fn place_of(ranges: &[(u64, u64)], range: (u64, u64)) -> (usize, usize)
    requires maximal { AreMaximal ranges.now }
    requires range { IsRange range }
    ensures { IsPlace ranges.now range result.0 result.1 }
{
    let from = count_before(ranges, range.0.saturating_sub(1));
    (from, end_of_touched(ranges, from, range.1))
}

// How many ranges end before a number. The last two are looked at first.
fn count_before(ranges: &[(u64, u64)], number: u64) -> usize
    requires { AreMaximal ranges.now }
    ensures bound { result ≤ length ranges.now }
    ensures before { (k : ℕ) → k < result
        → last_at ranges.now k < number }
    ensures after { (k : ℕ) → result ≤ k → k < length ranges.now
        → number ≤ last_at ranges.now k }
{
    let len = ranges.len();
    if len > 0 && ranges[len - 1].1 < number {
        return len;
    }
    if len > 1 && ranges[len - 2].1 < number {
        return len - 1;
    }
    search_before(ranges, number)
}

fn search_before(ranges: &[(u64, u64)], number: u64) -> usize
    requires { AreMaximal ranges.now }
    ensures bound { result ≤ length ranges.now }
    ensures before { (k : ℕ) → k < result
        → last_at ranges.now k < number }
    ensures after { (k : ℕ) → result ≤ k → k < length ranges.now
        → number ≤ last_at ranges.now k }
{
    ranges.partition_point(|range| range.1 < number)
}

// Behind a place, the first range that neither overlaps nor touches what ends at a number.
fn end_of_touched(ranges: &[(u64, u64)], from: usize, last: u64) -> usize
    requires from { from ≤ length ranges.now }
    requires last { last < 2 ^ 32 }
    ensures bound { (from ≤ result) × (result ≤ length ranges.now) }
    ensures before { (k : ℕ) → from ≤ k → k < result
        → first_at ranges.now k ≤ last + 1 }
    ensures end { result < length ranges.now
        → last + 1 < first_at ranges.now result }
{
    for place in from..ranges.len() {
        if ranges[place].0 > last + 1 {
            return place;
        }
    }
    ranges.len()
}

pub(crate) fn covers(ranges: &[(u64, u64)], number: u64) -> bool
    requires { AreMaximal ranges.now }
    ensures { result ≡ is_covered number ranges.now }
{
    let at = count_before(ranges, number);
    at < ranges.len() && ranges[at].0 <= number
}

// Whether each range on the right lies behind all on the left.
pub(crate) fn lies_behind(left: &[(u64, u64)], right: &[(u64, u64)]) -> bool {
    left.is_empty() || right.is_empty() || left[left.len() - 1].1 < right[0].0
}

// Puts ranges into maximal ranges, one by one.
pub(crate) fn put_ranges(ranges: &mut Vec<(u64, u64)>, others: &[(u64, u64)])
    requires room { vec_len ranges.old + length others.now ≤ vec_capacity ranges.old }
    requires maximal { AreMaximal ranges.old.items }
    requires others { AllByRecursion IsRange others.now }
    ensures maximal { AreMaximal ranges.new.items }
    ensures covered { (n : ℕ) → is_covered n ranges.new.items
        ≡ (is_covered n ranges.old.items || is_covered n others.now) }
{
    for range in others {
        put_range(ranges, *range);
    }
}

// The maximal ranges of the numbers of both.
pub(crate) fn merged(
    alloc: Global,
    left: &[(u64, u64)],
    right: &[(u64, u64)],
) -> Result<Vec<(u64, u64)>, NoMemory>
    requires left { AreMaximal left.now }
    requires right { AreMaximal right.now }
    ensures maximal { IfOk result (λ both. AreMaximal both.items) }
    ensures covered { IfOk result (λ both. (n : ℕ) → is_covered n both.items
        ≡ (is_covered n left.now || is_covered n right.now)) }
{
    let mut both = Vec::with_capacity(alloc, left.len() + right.len())?;
    let (mut left, mut right) = (left, right);
    while !left.is_empty() || !right.is_empty() {
        let (range, left_rest, right_rest) = split_least(left, right);
        put_range(&mut both, range);
        left = left_rest;
        right = right_rest;
    }
    Ok(both)
}

// The range that begins first in two lists of which one has any, and what is left of both without
// it.
fn split_least<'a>(
    left: &'a [(u64, u64)],
    right: &'a [(u64, u64)],
) -> ((u64, u64), &'a [(u64, u64)], &'a [(u64, u64)])
    requires some { 0 < length left.now + length right.now }
    requires left { AllByRecursion IsRange left.now }
    requires right { AllByRecursion IsRange right.now }
    ensures covered { (n : ℕ) → (is_covered n left.now || is_covered n right.now)
        ≡ (is_within n result.0 || (is_covered n result.1.now || is_covered n result.2.now)) }
    ensures ranges { IsRange result.0 × AllByRecursion IsRange result.1.now
        × AllByRecursion IsRange result.2.now }
    ensures shorter { length result.1.now + length result.2.now + 1
        ≡ length left.now + length right.now }
{
    if right.is_empty() || !left.is_empty() && left[0].0 <= right[0].0 {
        (left[0], &left[1..], right)
    } else {
        (right[0], left, &right[1..])
    }
}

pub(crate) fn count_numbers(ranges: &[(u64, u64)]) -> u64
    requires { AreMaximal ranges.now }
    ensures { result ≡ length (numbers_of ranges.now) }
{
    let mut count = 0;
    for range in ranges {
        count += range.1 + 1 - range.0;
    }
    count
}
