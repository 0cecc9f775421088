//! Rows and parcels divided among shards.
ghost use Rattle.std.specs.Prelude.{◌≡◌, [], ◌∷◌, IsTrue, map, replicate, length, IfOk, OnOk, ◌<◌};
ghost use Rattle.std.specs.FinMap.{is_sorted};
ghost use Rattle.std.specs.List.{AllByRecursion, range_with_len};
ghost use Rattle.sb_feed.specs.Index.{with_item};
ghost use Rattle.sb_feed.specs.Keys.{key_order, shard_of};
ghost use Rattle.sb_job.specs.Batches.{shard_rows};
ghost use Rattle.sb_job.specs.Parcels.{shard_parcel};

use sb_feed::{Cut, KeyBytes, Parcel, Part, PartList, RowList, Rows, push_at};
use sb_laws::NoMemory;
use sb_text::Ranges;
use std::alloc::Global;

/// The rows of each shard, by the shard's number, in their order and of the same batches: one pass, in which each row
/// is moved. With one shard nothing is looked at.
pub fn split_rows<E: Drop>(
    alloc: Global,
    rows: Rows<E>,
    cut: &Cut,
) -> Result<Vec<Rows<E>>, NoMemory>
    ensures { IfOk result (λ split. split.items
        ≡ map (shard_rows cut.now.shards rows) (range_with_len 0 cut.now.shards)) }
{
    if cut.shards() == 1 {
        only(alloc, rows)
    } else {
        divide_rows(alloc, rows, cut)
    }
}

/// The parcel of each shard, by the shard's number: all the chunks, and the parts of its keys in their order. One pass, in
/// which each part is moved. With one shard nothing is looked at.
pub fn split_parcel<E: Drop>(
    alloc: Global,
    parcel: Parcel<E>,
    cut: &Cut,
) -> Result<Vec<Parcel<E>>, NoMemory>
    ensures { IfOk result (λ split. split.items
        ≡ map (shard_parcel cut.now.shards parcel) (range_with_len 0 cut.now.shards)) }
{
    if cut.shards() == 1 {
        only(alloc, parcel)
    } else {
        divide_parcel(alloc, parcel, cut)
    }
}

fn only<T: Drop>(alloc: Global, item: T) -> Result<Vec<T>, NoMemory>
    ensures { IfOk result (λ list. list.items ≡ item ∷ []) }
{
    let mut list = Vec::with_capacity(alloc, 1)?;
    list.push(item)?;
    Ok(list)
}

fn divide_rows<E: Drop>(alloc: Global, rows: Rows<E>, cut: &Cut) -> Result<Vec<Rows<E>>, NoMemory>
    ensures { IfOk result (λ split. split.items
        ≡ map (shard_rows cut.now.shards rows) (range_with_len 0 cut.now.shards)) }
{
    let Rows { from, to, rows } = rows;
    let mut lists = empty_lists(alloc, cut.shards())?;
    for row in rows.into_vec() {
        push_row(&mut lists, cut, row)?;
    }
    rows_of(alloc, from, to, lists)
}

fn divide_parcel<E: Drop>(
    alloc: Global,
    parcel: Parcel<E>,
    cut: &Cut,
) -> Result<Vec<Parcel<E>>, NoMemory>
    ensures { IfOk result (λ split. split.items
        ≡ map (shard_parcel cut.now.shards parcel) (range_with_len 0 cut.now.shards)) }
{
    let Parcel { chunks, parts } = parcel;
    let mut lists = empty_lists(alloc, cut.shards())?;
    for part in parts.into_vec() {
        push_part(&mut lists, cut, part)?;
    }
    parcels_of(alloc, &chunks, lists)
}

// So many lists with nothing in them.
fn empty_lists<T: Drop>(alloc: Global, count: u32) -> Result<Vec<Vec<T>>, NoMemory>
    ensures { IfOk result (λ lists. map (λ list. list.items) lists.items ≡ replicate count []) }
{
    let mut lists = Vec::with_capacity(alloc, count as usize)?;
    for _ in 0..count {
        lists.push(Vec::new(alloc))?;
    }
    Ok(lists)
}

// Puts a row at the end of its shard's list.
fn push_row<E: Drop>(
    lists: &mut Vec<Vec<(KeyBytes, E)>>,
    cut: &Cut,
    row: (KeyBytes, E),
) -> Result<(), NoMemory>
    requires { length lists.old.items ≡ cut.now.shards }
    ensures { OnOk result (map (λ list. list.items) lists.new.items
        ≡ with_item (shard_of cut.now.shards row.0) row (map (λ list. list.items) lists.old.items)) }
{
    let shard = cut.shard_of(&row.0);
    push_at(lists, u64::from(shard), row)
}

// Puts a part at the end of its shard's list.
fn push_part<E: Drop>(
    lists: &mut Vec<Vec<Part<E>>>,
    cut: &Cut,
    part: Part<E>,
) -> Result<(), NoMemory>
    requires { length lists.old.items ≡ cut.now.shards }
    ensures { OnOk result (map (λ list. list.items) lists.new.items
        ≡ with_item (shard_of cut.now.shards part.key) part
        (map (λ list. list.items) lists.old.items)) }
{
    let shard = cut.shard_of(&part.key);
    push_at(lists, u64::from(shard), part)
}

// The rows that the lists are, of these batches.
fn rows_of<E: Drop>(
    alloc: Global,
    from: u64,
    to: u64,
    lists: Vec<Vec<(KeyBytes, E)>>,
) -> Result<Vec<Rows<E>>, NoMemory>
    requires { AllByRecursion (λ list. IsTrue (is_sorted key_order list.items)) lists.items }
    ensures { IfOk result (λ split. split.items
        ≡ map (λ list. record { from = from; to = to; rows = list.items }) lists.items) }
{
    let mut split = Vec::with_capacity(alloc, lists.len())?;
    for list in lists {
        split.push(Rows {
            from,
            to,
            rows: RowList::from_vec(list),
        })?;
    }
    Ok(split)
}

// The parcels that the lists are, each with a copy of the chunks.
fn parcels_of<E: Drop>(
    alloc: Global,
    chunks: &Ranges,
    lists: Vec<Vec<Part<E>>>,
) -> Result<Vec<Parcel<E>>, NoMemory>
    ensures { IfOk result (λ split. split.items
        ≡ map (λ list. record { chunks = chunks.now; parts = list.items }) lists.items) }
{
    let mut split = Vec::with_capacity(alloc, lists.len())?;
    for list in lists {
        split.push(Parcel {
            chunks: chunks.copy()?,
            parts: PartList::from_vec(list),
        })?;
    }
    Ok(split)
}
