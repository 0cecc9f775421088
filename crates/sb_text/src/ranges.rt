//! Sets of numbers, kept and printed as their maximal ranges.
ghost use Rattle.std.specs.Prelude.{◌≡◌, ◌↔◌, ℕ, ◌-◌, ◌^◌, ◌<◌, ◌≤◌, List, [], ◌++◌, Some, IsTrue, OnOk, OnErr, IfOk, IfSome, Contains, length};
ghost use Rattle.std.specs.List.{range_with_len};
ghost use Rattle.sb_text.specs.Ranges.{IsSet, put, union, ranges_text};

use crate::NoMemory;
use crate::maximal::{count_numbers, covers, lies_behind, merged, put_range, put_ranges};
use crate::range_texts::{push_ranges, read_set};
use std::alloc::Global;
use std::marker::Model;

/// A set of numbers below 2^32. It keeps its maximal ranges in rising order, each by its first and
/// its last number: that is all the memory that it takes, however many numbers a range has.
#[derive(Drop)]
pub struct Ranges {
    ranges: Vec<(u64, u64)>,
}

impl Model for Ranges {
    ghost use Rattle.std.specs.Prelude.{List, ℕ};
    ghost use Rattle.sb_text.specs.MaximalRanges.{AreMaximal, numbers_of};

    ghost Value = { List ℕ };

    ghost view = { λ r. numbers_of r.ranges.items };

    ghost invariant = { λ r. AreMaximal r.ranges.items };
}

impl Ranges {
    /// The empty set. Takes no memory.
    pub fn new(alloc: Global) -> Ranges
        ensures { result ≡ [] }
    {
        Ranges {
            ranges: Vec::new(alloc),
        }
    }

    /// The numbers from one on and below another: one range, or none.
    pub fn span(alloc: Global, from: u64, to: u64) -> Result<Ranges, NoMemory>
        requires order { from ≤ to }
        requires limit { to ≤ 2 ^ 32 }
        ensures { IfOk result (λ numbers. numbers ≡ range_with_len from (to - from)) }
    {
        let mut ranges = Vec::new(alloc);
        if from < to {
            ranges.push((from, to - 1))?;
        }
        Ok(Ranges { ranges })
    }

    /// Puts a number into the set: by a binary search and at most one move of the ranges behind it,
    /// and in constant time, amortised, where it lies behind all others.
    pub fn insert(&mut self, number: u64) -> Result<(), NoMemory>
        requires { number < 2 ^ 32 }
        ensures ok { OnOk result (self.new ≡ put number self.old) }
        ensures err { OnErr result (self.new ≡ self.old) }
    {
        self.ranges.reserve(1)?;
        put_range(&mut self.ranges, (number, number));
        Ok(())
    }

    /// Whether the number is in the set, by a binary search.
    pub fn contains(&self, number: u64) -> bool
        ensures { IsTrue result ↔ Contains self.now number }
    {
        covers(&self.ranges, number)
    }

    /// Puts each number of another set into this one, in time linear in the ranges of both. A
    /// single range takes the time of `insert`. Where all of the other's ranges lie behind the
    /// numbers that are there, each takes constant time, amortised.
    pub fn union(&mut self, other: &Ranges) -> Result<(), NoMemory>
        ensures ok { OnOk result (self.new ≡ union self.old other.now) }
        ensures err { OnErr result (self.new ≡ self.old) }
    {
        if other.ranges.len() <= 1 || lies_behind(&self.ranges, &other.ranges) {
            self.ranges.reserve(other.ranges.len())?;
            put_ranges(&mut self.ranges, &other.ranges);
            return Ok(());
        }
        let alloc = *self.ranges.allocator();
        self.ranges = merged(alloc, &self.ranges, &other.ranges)?;
        Ok(())
    }

    /// How many numbers the set has, in time linear in its ranges.
    pub fn count(&self) -> u64
        ensures { result ≡ length self.now }
    {
        count_numbers(&self.ranges)
    }

    /// An equal set.
    pub fn copy(&self) -> Result<Ranges, NoMemory>
        ensures { IfOk result (λ ranges. ranges ≡ self.now) }
    {
        let ranges = Vec::from_slice(*self.ranges.allocator(), &self.ranges)?;
        Ok(Ranges { ranges })
    }

    /// Writes the set at the end of `out`: its maximal ranges, such as `0-3,5-5`, or `none`.
    pub fn text(&self, out: &mut Vec<u8>) -> Result<(), NoMemory>
        ensures ok { OnOk result (out.new.items ≡ out.old.items ++ ranges_text self.now) }
        ensures err { OnErr result (out.new.items ≡ out.old.items) }
    {
        let before = out.len();
        match push_ranges(*self.ranges.allocator(), out, &self.ranges) {
            Ok(()) => Ok(()),
            Err(e) => {
                out.truncate(before);
                Err(e)
            }
        }
    }

    /// The set of which this is the text; `None` exactly where the bytes are no set's text. Takes
    /// memory for the ranges alone, so that a short text can't ask for much.
    pub fn read(alloc: Global, bytes: &[u8]) -> Result<Option<Ranges>, NoMemory>
        ensures spelled { IfOk result (λ ranges.
            IfSome ranges (λ numbers. IsSet numbers × (bytes.now ≡ ranges_text numbers))) }
        ensures every { IfOk result (λ ranges. (numbers : List ℕ) → IsSet numbers
            → bytes.now ≡ ranges_text numbers → ranges ≡ Some numbers) }
    {
        match read_set(alloc, bytes)? {
            Some(ranges) => Ok(Some(Ranges { ranges })),
            None => Ok(None),
        }
    }
}
