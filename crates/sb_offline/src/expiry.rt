//! How rows go to the base: made to wait within a room that is made before, and added as far as memory goes.
ghost use Rattle.std.specs.Prelude.{◌≡◌, ◌≤◌, ◌+◌, ◌++◌, List, [], take, length, vec_len, vec_capacity, IsTrue, IsOk, IfOk};
ghost use Rattle.std.specs.List.{AllByRecursion, IsDistinct};
ghost use Rattle.std.specs.FinMap.{is_sorted};
ghost use Rattle.std.specs.Map.{keys_of};
ghost use Rattle.sb_feed.specs.declared.key.KeyBytes.{KeyBytes as Key};
ghost use Rattle.sb_feed.specs.Keys.{key_order, same_key};
ghost use Rattle.sb_feed.specs.Jobs.{AreValid, meant};
ghost use Rattle.sb_job.specs.Sums.{HasKeySums};
ghost use Rattle.sb_offline.specs.Expiries.{rows_below, emptied};

use sb_feed::{Family, KeyBytes, RowList};
use sb_job::KeySums;
use sb_laws::{NoMemory, Semigroup};
use std::alloc::{AllocError, Global};
use thiserror::Error;

/// Why nothing expires.
#[derive(Clone, Copy, Debug, PartialEq, Eq, Error)]
pub enum ExpireError {
    /// The floor that was asked for is above the number of published batches.
    #[error("batches below {asked} can't expire: {published} are published")]
    NotPublished { asked: u64, published: u64 },
    #[error("out of memory")]
    NoMemory,
}

impl From<NoMemory> for ExpireError {
    ghost use Rattle.std.specs.Prelude.{◌≡◌};
    ghost use Rattle.sb_offline.specs.declared.expiry.ExpireError.TheVariants.{NoMemory as no_memory};

    ghost from_gives = { λ _ e. e ≡ no_memory };

    fn from(_: NoMemory) -> ExpireError {
        ExpireError::NoMemory
    }
}

/// The number of the rows of some lists, where those before them have none; refused where no list could have so many.
pub fn count_rows<E>(lists: &[RowList<E>], from: u64, to: u64) -> Result<usize, NoMemory>
    requires order { from ≤ to }
    requires within { to ≤ length lists.now }
    requires below { AllByRecursion (λ rows. rows ≡ []) (take from lists.now) }
    ensures { IfOk result (λ count. count ≡ length (rows_below to lists.now)) }
{
    let mut count = 0;
    for batch in from..to {
        count = sum_within(count, lists[batch as usize].len())?;
    }
    Ok(count)
}

fn sum_within(a: usize, b: usize) -> Result<usize, NoMemory>
    ensures { IfOk result (λ sum. sum ≡ a + b) }
{
    match a.checked_add(b) {
        Some(sum) => Ok(sum),
        None => Err(AllocError),
    }
}

/// Moves the rows of some lists to the end of a list that has room for them. No memory is taken.
pub fn move_rows<E: Drop>(
    alloc: Global,
    lists: &mut Vec<RowList<E>>,
    from: u64,
    to: u64,
    out: &mut Vec<(KeyBytes, E)>,
) -> Result<(), NoMemory>
    requires order { from ≤ to }
    requires within { to ≤ length lists.old.items }
    requires below { AllByRecursion (λ rows. rows ≡ []) (take from lists.old.items) }
    requires room { vec_len out.old + length (rows_below to lists.old.items)
        ≤ vec_capacity out.old }
    ensures done { IsOk result }
    ensures lists { lists.new.items ≡ emptied to lists.old.items }
    ensures out { out.new.items ≡ out.old.items ++ rows_below to lists.old.items }
    ensures rising { AllByRecursion (λ rows. IsTrue (is_sorted key_order rows))
        (take to lists.old.items) }
{
    for batch in from..to {
        let rows = std::mem::replace(&mut lists[batch as usize], RowList::new(alloc));
        let mut rows = rows.into_vec();
        out.append(&mut rows)?;
    }
    Ok(())
}

/// Adds copies of values to sums, one after the other and as far as memory goes, and gives the number of those that are
/// added.
pub fn add_copies<F: Family>(
    alloc: Global,
    family: &F,
    sums: &mut KeySums<<F::M as Semigroup>::El>,
    values: &[(KeyBytes, <F::M as Semigroup>::El)],
) -> usize
    requires values { AreValid (meant F.M.valid F.M.add (F.monoids family.now)) values.now }
    requires sums { AreValid (meant F.M.valid F.M.add (F.monoids family.now)) sums.old }
    requires apart { IsDistinct same_key (keys_of sums.old) }
    ensures within { result ≤ length values.now }
    ensures valid { AreValid (meant F.M.valid F.M.add (F.monoids family.now)) sums.new }
    ensures sums { (before : List (Key × F.M.El))
        → HasKeySums (meant F.M.valid F.M.add (F.monoids family.now)) before sums.old
        → HasKeySums (meant F.M.valid F.M.add (F.monoids family.now))
        (before ++ take result values.now) sums.new }
    ensures apart { IsDistinct same_key (keys_of sums.new) }
{
    let mut added = 0;
    for (key, value) in values {
        if sums.add_copy(alloc, family, key, value).is_err() {
            return added;
        }
        added += 1;
    }
    added
}
