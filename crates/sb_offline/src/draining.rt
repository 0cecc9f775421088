//! The rows of all published batches, added up.
ghost use Rattle.std.specs.Prelude.{◌≡◌, ◌++◌, List, IsTrue, OnOk};
ghost use Rattle.std.specs.FinMap.{is_sorted};
ghost use Rattle.std.specs.List.{flat_map, AllByRecursion};
ghost use Rattle.sb_feed.specs.declared.key.KeyBytes.{KeyBytes as Key};
ghost use Rattle.sb_feed.specs.Jobs.{AreValid, meant};
ghost use Rattle.sb_feed.specs.Keys.{key_order};
ghost use Rattle.sb_job.specs.Sums.{HasKeySums};

use sb_feed::{Family, RowList};
use sb_job::KeySums;
use sb_laws::{NoMemory, Semigroup};
use std::alloc::Global;

/// Adds the rows of lists, one list after the other.
pub fn add_lists<F: Family>(
    alloc: Global,
    family: &F,
    sums: &mut KeySums<<F::M as Semigroup>::El>,
    lists: Vec<RowList<<F::M as Semigroup>::El>>,
) -> Result<(), NoMemory>
    requires lists { AreValid (meant F.M.valid F.M.add (F.monoids family.now))
        (flat_map (λ rows. rows) lists.items) }
    requires sums { AreValid (meant F.M.valid F.M.add (F.monoids family.now)) sums.old }
    ensures valid { OnOk result (AreValid (meant F.M.valid F.M.add (F.monoids family.now))
        sums.new) }
    ensures sums { OnOk result ((values : List (Key × F.M.El))
        → HasKeySums (meant F.M.valid F.M.add (F.monoids family.now)) values sums.old
        → HasKeySums (meant F.M.valid F.M.add (F.monoids family.now))
        (values ++ flat_map (λ rows. rows) lists.items) sums.new) }
    ensures rising { OnOk result (AllByRecursion (λ rows. IsTrue (is_sorted key_order rows))
        lists.items) }
{
    for rows in lists {
        sums.add_rows(alloc, family, rows)?;
    }
    Ok(())
}
