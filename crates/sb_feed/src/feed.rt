//! The parts that the records of a log add to keys.
ghost use Rattle.std.specs.Prelude.{◌≡◌, ◌<◌, ◌≤◌, ◌++◌, List, map, length, slice_index, OnOk, OnErr};
ghost use Rattle.std.specs.List.{AllByRecursion};
ghost use Rattle.sb_feed.specs.Jobs.{Record, IsRecord, meant};
ghost use Rattle.sb_feed.specs.Limits.{last_batch};
ghost use Rattle.sb_feed.specs.Feeds.{parts_at};
ghost use Rattle.sb_feed.specs.Index.{positions_of};

use crate::NoMemory;
use crate::family::Family;
use crate::parts::Part;
use sb_laws::Semigroup;
use std::alloc::Global;

/// The parts of a log's records.
pub trait Feed: Family {
    /// The records in log order.
    ghost records: { Self → List (Record Self.M.El) };

    /// The number of records.
    fn len(&self) -> u64
        ensures len { result ≡ length (records self.now) }
        ensures valid { AllByRecursion (IsRecord
            (meant Self.M.valid Self.M.add (Self.monoids self.now))) (records self.now) };

    /// The batch of a record, at most 65,535.
    fn batch(&self, i: u64) -> u64
        requires { i < length (records self.now) }
        ensures batch { result ≡ slice_index (map (λ r. r.batch) (records self.now)) i }
        ensures limit { result ≤ last_batch };

    /// The positions of a batch's records, in rising order; a batch without records has none. Takes constant time.
    fn positions(&self, batch: u64) -> &[u64]
        ensures { result.now ≡ positions_of (map (λ r. r.batch) (records self.now)) batch };

    /// Appends the parts of a record: each key at most once, in rising order. A refusal leaves `out` as it was.
    fn emit(
        &self,
        alloc: Global,
        i: u64,
        out: &mut Vec<Part<<Self::M as Semigroup>::El>>,
    ) -> Result<(), NoMemory>
        requires { i < length (records self.now) }
        ensures ok { OnOk result (out.new.items ≡ out.old.items ++ parts_at (records self.now) i) }
        ensures err { OnErr result (out.new.items ≡ out.old.items) };
}
