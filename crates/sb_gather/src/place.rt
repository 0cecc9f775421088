//! The place of an entry in a list in order.
ghost use Rattle.std.specs.Prelude.{◌≡◌, ◌<◌, length, slice_get, Some};
ghost use Rattle.std.specs.declared.cmp.Ordering.{Ordering};
ghost use Rattle.std.specs.Cmp.{IsTotalOrder};
ghost use Rattle.sb_gather.specs.Places.{IsPlace};
ghost use Rattle.sb_gather.specs.Tops.{IsRanked};

use std::cmp::Ordering;

/// How the entries of a list in order are compared.
pub trait Ordered {
    type Entry: Drop;

    /// What `compare` gives.
    ghost order: { Self → Self.Entry → Self.Entry → Ordering };

    fn compare(&self, a: &Self::Entry, b: &Self::Entry) -> Ordering
        ensures { result ≡ order self.now a.now b.now };

    ghost total: { (m : Self) → IsTotalOrder (order m) };
}

// An element, lent.
fn at<T>(list: &[T], at: usize) -> &T
    requires { at < length list.now }
    ensures { slice_get list.now at ≡ Some result.now }
{
    &list[at]
}

/// The place of an entry that ties with this one, and else where this one would go: a binary search.
pub fn place_of<O: Ordered>(order: &O, list: &[O::Entry], entry: &O::Entry) -> Result<usize, usize>
    requires { IsRanked (O.order order.now) list.now }
    ensures { IsPlace (O.order order.now) entry.now list.now result }
{
    let mut low = 0;
    let mut high = list.len();
    while low < high {
        let middle = low + (high - low) / 2;
        let there = at(list, middle);
        match order.compare(entry, there) {
            Ordering::Less => high = middle,
            Ordering::Equal => return Ok(middle),
            Ordering::Greater => low = middle + 1,
        }
    }
    Err(low)
}
