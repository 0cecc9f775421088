//! The sums of a key by batch.
ghost use Rattle.std.specs.Prelude.{◌≡◌, ◌<◌, ◌≤◌, ◌++◌, [], ◌∷◌, take, drop, length, IsTrue, OnOk, MatchResult};
ghost use Rattle.std.specs.List.{AllByRecursion};
ghost use Rattle.std.specs.Ordering.{nat_cmp};
ghost use Rattle.std.specs.FinMap.{is_sorted};
ghost use Rattle.std.specs.Option.{option_map};
ghost use Rattle.sb_laws.specs.Tables.{add_to, add_all};
ghost use Rattle.sb_feed.specs.Keys.{same_key};
ghost use Rattle.sb_job.specs.ByBatch.{is_asked, asked, onto, IsHere, IsGap};

use sb_feed::{KeyBytes, Part};
use sb_laws::{NoMemory, Semigroup};
use std::alloc::Global;

/// Adds copies of the parts of a key and of the batches from `from` to `upto`, each to the sum of its batch. The sums
/// rise by batch. After a refusal some of the parts are added.
pub fn add_asked<M: Semigroup>(
    alloc: Global,
    m: &M,
    sums: &mut Vec<(u64, M::El)>,
    parts: &[Part<M::El>],
    key: &KeyBytes,
    from: u64,
    upto: u64,
) -> Result<(), NoMemory>
    requires rising { IsTrue (is_sorted nat_cmp sums.old.items) }
    requires parts { AllByRecursion (λ pair. M.valid m.now pair.1)
        (asked key.now from upto parts.now) }
    requires sums { AllByRecursion (λ pair. M.valid m.now pair.1) sums.old.items }
    ensures { OnOk result (sums.new.items ≡ add_all nat_cmp (M.add m.now) sums.old.items
        (asked key.now from upto parts.now)) }
{
    for part in parts {
        add_part(alloc, m, sums, part, key, from, upto)?;
    }
    Ok(())
}

// Adds the part, if it is asked for.
fn add_part<M: Semigroup>(
    alloc: Global,
    m: &M,
    sums: &mut Vec<(u64, M::El)>,
    part: &Part<M::El>,
    key: &KeyBytes,
    from: u64,
    upto: u64,
) -> Result<(), NoMemory>
    requires rising { IsTrue (is_sorted nat_cmp sums.old.items) }
    requires valid { AllByRecursion (λ pair. M.valid m.now pair.1)
        (asked key.now from upto (part.now ∷ [])) }
    requires sums { AllByRecursion (λ pair. M.valid m.now pair.1) sums.old.items }
    ensures { OnOk result (sums.new.items ≡ add_all nat_cmp (M.add m.now) sums.old.items
        (asked key.now from upto (part.now ∷ []))) }
{
    if !is_wanted(part, key, from, upto) {
        return Ok(());
    }
    let value = m.copy(alloc, &part.value)?;
    add_value(alloc, m, sums, part.batch, value)
}

fn is_wanted<E>(part: &Part<E>, key: &KeyBytes, from: u64, upto: u64) -> bool
    ensures { result ≡ is_asked key.now from upto part.now }
{
    is_key(key, &part.key) && from <= part.batch && part.batch <= upto
}

/// Whether two keys are the same.
pub fn is_key(a: &KeyBytes, b: &KeyBytes) -> bool
    ensures { result ≡ same_key a.now b.now }
{
    a == b
}

// Adds a value to the sum of its batch.
fn add_value<M: Semigroup>(
    alloc: Global,
    m: &M,
    sums: &mut Vec<(u64, M::El)>,
    batch: u64,
    value: M::El,
) -> Result<(), NoMemory>
    requires rising { IsTrue (is_sorted nat_cmp sums.old.items) }
    requires valid { AllByRecursion (λ pair. M.valid m.now pair.1) sums.old.items }
    requires value { M.valid m.now value }
    ensures { OnOk result (sums.new.items ≡ add_to nat_cmp (M.add m.now) batch value
        sums.old.items) }
{
    match place_of(sums.as_slice(), batch) {
        Ok(at) => m.plus(alloc, &mut sums[at].1, value),
        Err(at) => {
            sums.insert(at, (batch, value))?;
            Ok(())
        }
    }
}

// Where the sum of a batch stands, or would go.
fn place_of<E>(sums: &[(u64, E)], batch: u64) -> Result<usize, usize>
    requires { IsTrue (is_sorted nat_cmp sums.now) }
    ensures { MatchResult result (IsHere batch sums.now) (IsGap batch sums.now) }
{
    let at = first_from(sums, batch);
    if at < sums.len() && sums[at].0 == batch {
        Ok(at)
    } else {
        Err(at)
    }
}

// The place of the first sum that isn't of an earlier batch. It is looked for from the end: most values are of the last
// batches.
fn first_from<E>(sums: &[(u64, E)], batch: u64) -> usize
    requires { IsTrue (is_sorted nat_cmp sums.now) }
    ensures within { result ≤ length sums.now }
    ensures before { AllByRecursion (λ pair. pair.0 < batch) (take result sums.now) }
    ensures after { AllByRecursion (λ pair. batch ≤ pair.0) (drop result sums.now) }
{
    let mut at = sums.len();
    while at > 0 && sums[at - 1].0 >= batch {
        at -= 1;
    }
    at
}

/// Appends a copy of what a batch has of a key, if it has anything.
pub fn push_found<M: Semigroup>(
    alloc: Global,
    m: &M,
    sums: &mut Vec<(u64, M::El)>,
    batch: u64,
    found: Option<&M::El>,
) -> Result<(), NoMemory>
    ensures { OnOk result (sums.new.items ≡ sums.old.items
        ++ onto batch (option_map (λ value. value.now) found.entry) []) }
{
    match found {
        Some(value) => {
            let value = m.copy(alloc, value)?;
            sums.push((batch, value))?;
            Ok(())
        }
        None => Ok(()),
    }
}
