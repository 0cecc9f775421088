//! Lists that are in order.
ghost use Rattle.std.specs.Prelude.{◌≡◌};
ghost use Rattle.sb_kind.specs.Read.{may_precede, is_sorted};

use sb_gather::Ordered;
use std::cmp::Ordering;

fn may_precede(ties: bool, order: Ordering) -> bool
    ensures { result ≡ may_precede ties order }
{
    match order {
        Ordering::Less => true,
        Ordering::Equal => ties,
        Ordering::Greater => false,
    }
}

/// Whether each entry is before the next, or ties with it where ties may stand.
pub fn is_sorted<O: Ordered>(order: &O, ties: bool, entries: &[O::Entry]) -> bool
    ensures { result ≡ is_sorted ties (O.order order.now) entries.now }
{
    for (at, entry) in entries.iter().enumerate() {
        let Some(next) = entries.get(at + 1) else {
            return true;
        };
        if !may_precede(ties, order.compare(entry, next)) {
            return false;
        }
    }
    true
}
