//! What the lists of the store have of a key, and their keys.
ghost use Rattle.std.specs.Prelude.{◌≡◌, ◌++◌, ◌∷◌, ◌||◌, [], drop, IfOk, OnOk};
ghost use Rattle.std.specs.List.{AllByRecursion, list_any};
ghost use Rattle.std.specs.Option.{option_map};
ghost use Rattle.sb_laws.specs.Sums.{IsValid, sum_of};
ghost use Rattle.sb_laws.specs.Tables.{values_at};
ghost use Rattle.sb_feed.specs.declared.key.KeyBytes.{KeyBytes as Key};
ghost use Rattle.sb_feed.specs.Keys.{key_order, same_key};
ghost use Rattle.sb_job.specs.ByBatch.{one_or_none, rows_from};

use sb_feed::{KeyBytes, RowList};
use sb_job::{KeySet, is_key, push_found};
use sb_laws::{NoMemory, Semigroup};
use std::alloc::Global;

/// Copies of the rows of a key in the lists of the batches from one on, each with its batch.
pub fn gather_rows<M: Semigroup>(
    alloc: Global,
    m: &M,
    lists: &[RowList<M::El>],
    key: &KeyBytes,
    from: u64,
) -> Result<Vec<(u64, M::El)>, NoMemory>
    ensures { IfOk result (λ sums. sums.items ≡ rows_from key.now from (drop from lists.now)) }
{
    let mut sums = Vec::new(alloc);
    for batch in from..lists.len() as u64 {
        push_found(alloc, m, &mut sums, batch, lists[batch as usize].get(key))?;
    }
    Ok(sums)
}

/// A copy of what is found.
pub fn copy_found<M: Semigroup>(
    alloc: Global,
    m: &M,
    found: Option<&M::El>,
) -> Result<Option<M::El>, NoMemory>
    ensures { IfOk result (λ copy. copy ≡ option_map (λ value. value.now) found.entry) }
{
    match found {
        Some(value) => {
            let value = m.copy(alloc, value)?;
            Ok(Some(value))
        }
        None => Ok(None),
    }
}

/// A sum to which copies of the values of a key are added, one after the other.
pub fn with_values<M: Semigroup>(
    alloc: Global,
    m: &M,
    sum: Option<M::El>,
    values: &[(KeyBytes, M::El)],
    key: &KeyBytes,
) -> Result<Option<M::El>, NoMemory>
    requires sum { IsValid (M.valid m.now) sum }
    requires values { AllByRecursion (M.valid m.now) (values_at key_order key.now values.now) }
    ensures { IfOk result (λ all. all ≡ sum_of (M.add m.now)
        (one_or_none sum ++ values_at key_order key.now values.now)) }
{
    let mut sum = sum;
    for row in values {
        sum = with_row(alloc, m, sum, row, key)?;
    }
    Ok(sum)
}

fn with_row<M: Semigroup>(
    alloc: Global,
    m: &M,
    sum: Option<M::El>,
    row: &(KeyBytes, M::El),
    key: &KeyBytes,
) -> Result<Option<M::El>, NoMemory>
    requires sum { IsValid (M.valid m.now) sum }
    requires value { AllByRecursion (M.valid m.now)
        (values_at key_order key.now (row.now ∷ [])) }
    ensures { IfOk result (λ all. all ≡ sum_of (M.add m.now)
        (one_or_none sum ++ values_at key_order key.now (row.now ∷ []))) }
{
    if !is_key(key, &row.0) {
        return Ok(sum);
    }
    let value = m.copy(alloc, &row.1)?;
    match sum {
        Some(mut sum) => {
            m.plus(alloc, &mut sum, value)?;
            Ok(Some(sum))
        }
        None => Ok(Some(value)),
    }
}

/// Puts the keys of the rows of all lists into a set.
pub fn put_list_keys<E>(
    alloc: Global,
    keys: &mut KeySet,
    lists: &[RowList<E>],
) -> Result<(), NoMemory>
    ensures { OnOk result ((q : Key) → list_any (same_key q) keys.new
        ≡ (list_any (same_key q) keys.old || list_any (list_any (λ row. same_key q row.0))
        lists.now)) }
{
    for rows in lists {
        keys.put_rows(alloc, rows.as_slice())?;
    }
    Ok(())
}
