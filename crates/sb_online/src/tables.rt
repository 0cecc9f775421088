//! Tables of sums by batch.
ghost use Rattle.std.specs.Prelude.{◌≡◌, ◌≤◌, ◌<◌, ◌+◌, ◌++◌, ◌∷◌, ◌||◌, ℕ, List, [], drop, length, IfOk, OnOk, OnErr};
ghost use Rattle.std.specs.List.{AllByRecursion, list_any, flat_map};
ghost use Rattle.std.specs.Ordering.{nat_cmp};
ghost use Rattle.sb_laws.specs.Tables.{add_all};
ghost use Rattle.sb_feed.specs.declared.key.KeyBytes.{KeyBytes as Key};
ghost use Rattle.sb_feed.specs.Keys.{same_key};
ghost use Rattle.sb_feed.specs.Jobs.{AreValid, meant};
ghost use Rattle.sb_feed.specs.Stands.{keyed_values, sum_at};
ghost use Rattle.sb_job.specs.Sums.{HasKeySums};
ghost use Rattle.sb_job.specs.ByBatch.{asked, rows_from};
ghost use Rattle.sb_online.specs.Onlines.{tables_parts, AreApart, AddsPart, without};

use sb_feed::{Family, KeyBytes, Part};
use sb_job::{KeySet, KeySums, add_asked, push_found};
use sb_laws::{NoMemory, Semigroup};
use std::alloc::Global;

/// Adds copies of parts to the tables of their batches, one after the other and as far as memory goes, and gives the
/// number of those that are added. Tables are made where they lack.
pub fn add_copies<F: Family>(
    alloc: Global,
    family: &F,
    tables: &mut Vec<KeySums<<F::M as Semigroup>::El>>,
    parts: &[Part<<F::M as Semigroup>::El>],
) -> usize
    requires parts { AreValid (meant F.M.valid F.M.add (F.monoids family.now))
        (keyed_values parts.now) }
    requires tables { AreValid (meant F.M.valid F.M.add (F.monoids family.now))
        (keyed_values (tables_parts 0 tables.old.items)) }
    requires apart { AreApart tables.old.items }
    ensures within { result ≤ length parts.now }
    ensures sums { (key : Key) (j : ℕ)
        → sum_at (meant F.M.valid F.M.add (F.monoids family.now)).add key j
        (tables_parts 0 tables.new.items ++ drop result parts.now)
        ≡ sum_at (meant F.M.valid F.M.add (F.monoids family.now)).add key j
        (tables_parts 0 tables.old.items ++ parts.now) }
    ensures valid { AreValid (meant F.M.valid F.M.add (F.monoids family.now))
        (keyed_values (tables_parts 0 tables.new.items)) }
    ensures apart { AreApart tables.new.items }
{
    let mut added = 0;
    for part in parts {
        if add_copy(alloc, family, tables, part).is_err() {
            return added;
        }
        added += 1;
    }
    added
}

// Adds a copy of a part to the table of its batch. After a refusal the tables may be more, but have what they had.
fn add_copy<F: Family>(
    alloc: Global,
    family: &F,
    tables: &mut Vec<KeySums<<F::M as Semigroup>::El>>,
    part: &Part<<F::M as Semigroup>::El>,
) -> Result<(), NoMemory>
    requires part { AreValid (meant F.M.valid F.M.add (F.monoids family.now))
        (keyed_values (part.now ∷ [])) }
    requires tables { AreValid (meant F.M.valid F.M.add (F.monoids family.now))
        (keyed_values (tables_parts 0 tables.old.items)) }
    requires apart { AreApart tables.old.items }
    ensures ok { OnOk result (AddsPart (meant F.M.valid F.M.add (F.monoids family.now)).add
        part.now tables.old.items tables.new.items) }
    ensures err { OnErr result (tables_parts 0 tables.new.items
        ≡ tables_parts 0 tables.old.items) }
    ensures valid { AreValid (meant F.M.valid F.M.add (F.monoids family.now))
        (keyed_values (tables_parts 0 tables.new.items)) }
    ensures apart { AreApart tables.new.items }
{
    make_table(alloc, tables, part.batch)?;
    tables[part.batch as usize].add_copy(alloc, family, &part.key, &part.value)
}

// Makes the table of a batch, and those before it, where they lack.
fn make_table<E: Drop>(
    alloc: Global,
    tables: &mut Vec<KeySums<E>>,
    batch: u64,
) -> Result<(), NoMemory>
    ensures there { OnOk result (batch < length tables.new.items) }
    ensures parts { tables_parts 0 tables.new.items ≡ tables_parts 0 tables.old.items }
    ensures apart { AreApart tables.old.items → AreApart tables.new.items }
{
    while tables.len() as u64 <= batch {
        tables.push(KeySums::new(alloc))?;
    }
    Ok(())
}

/// Leaves the table of a batch empty. No memory is taken.
pub fn empty_table<E: Drop>(alloc: Global, tables: &mut Vec<KeySums<E>>, batch: u64)
    ensures parts { tables_parts 0 tables.new.items
        ≡ without batch (tables_parts 0 tables.old.items) }
    ensures apart { AreApart tables.old.items → AreApart tables.new.items }
{
    if batch < tables.len() as u64 {
        tables[batch as usize] = KeySums::new(alloc);
    }
}

/// The sums of a key by batch, of the batches from one on and up to another: copies of what the tables have, to which
/// copies of the parts are added. The tables are those up to the last batch.
pub fn gather<M: Semigroup>(
    alloc: Global,
    m: &M,
    tables: &[KeySums<M::El>],
    parts: &[Part<M::El>],
    key: &KeyBytes,
    from: u64,
    upto: u64,
) -> Result<Vec<(u64, M::El)>, NoMemory>
    requires tables { AllByRecursion (λ pair. M.valid m.now pair.1)
        (rows_from key.now from (drop from tables.now)) }
    requires parts { AllByRecursion (λ pair. M.valid m.now pair.1)
        (asked key.now from upto parts.now) }
    ensures { IfOk result (λ sums. sums.items ≡ add_all nat_cmp (M.add m.now)
        (rows_from key.now from (drop from tables.now)) (asked key.now from upto parts.now)) }
{
    let mut sums = gather_sums(alloc, m, tables, key, from)?;
    add_asked(alloc, m, &mut sums, parts, key, from, upto)?;
    Ok(sums)
}

// Copies of the sums of a key in the tables of the batches from one on, each with its batch.
fn gather_sums<M: Semigroup>(
    alloc: Global,
    m: &M,
    tables: &[KeySums<M::El>],
    key: &KeyBytes,
    from: u64,
) -> Result<Vec<(u64, M::El)>, NoMemory>
    ensures { IfOk result (λ sums. sums.items ≡ rows_from key.now from (drop from tables.now)) }
{
    let mut sums = Vec::new(alloc);
    for batch in from..tables.len() as u64 {
        push_found(alloc, m, &mut sums, batch, tables[batch as usize].get(key))?;
    }
    Ok(sums)
}

/// Puts the keys of the tables of the batches from one on into a set.
pub fn put_table_keys<E>(
    alloc: Global,
    keys: &mut KeySet,
    tables: &[KeySums<E>],
    from: u64,
) -> Result<(), NoMemory>
    ensures { OnOk result ((q : Key) → list_any (same_key q) keys.new
        ≡ (list_any (same_key q) keys.old || list_any (list_any (λ row. same_key q row.0))
        (drop from tables.now))) }
{
    for batch in from..tables.len() as u64 {
        tables[batch as usize].put_keys(alloc, keys)?;
    }
    Ok(())
}

/// Adds the sums of tables to those of one table, one table after the other.
pub fn add_tables<F: Family>(
    alloc: Global,
    family: &F,
    sums: &mut KeySums<<F::M as Semigroup>::El>,
    tables: Vec<KeySums<<F::M as Semigroup>::El>>,
) -> Result<(), NoMemory>
    requires tables { AreValid (meant F.M.valid F.M.add (F.monoids family.now))
        (flat_map (λ table. table) tables.items) }
    requires sums { AreValid (meant F.M.valid F.M.add (F.monoids family.now)) sums.old }
    ensures valid { OnOk result (AreValid (meant F.M.valid F.M.add (F.monoids family.now))
        sums.new) }
    ensures sums { OnOk result ((values : List (Key × F.M.El))
        → HasKeySums (meant F.M.valid F.M.add (F.monoids family.now)) values sums.old
        → HasKeySums (meant F.M.valid F.M.add (F.monoids family.now))
        (values ++ flat_map (λ table. table) tables.items) sums.new) }
{
    for table in tables {
        sums.add_sums(alloc, family, table)?;
    }
    Ok(())
}
