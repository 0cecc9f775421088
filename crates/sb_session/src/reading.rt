//! What a read gives.
ghost use Rattle.std.specs.Prelude.{◌≡◌, ◌++◌, map, IfOk, OnOk};
ghost use Rattle.std.specs.List.{AllByRecursion};
ghost use Rattle.sb_laws.specs.Sums.{sum_of};
ghost use Rattle.sb_shard.specs.Asks.{values_of};

use sb_feed::Sums;
use sb_laws::{NoMemory, Semigroup, fold_list};
use sb_shard::Answer;
use sb_text::Ranges;
use std::alloc::Global;

/// What a read gives: the value, which is none where no named record has the key; the number of published batches; and
/// the chunks that were worked.
#[derive(Drop)]
pub struct Reading<E> {
    pub value: Option<E>,
    pub published: u64,
    pub cover: Ranges,
}

/// The sum of the values that a shard answers, with the cover and the number of published batches.
pub fn merge<M: Semigroup>(
    alloc: Global,
    m: &M,
    answer: Answer<M::El>,
) -> Result<Reading<M::El>, NoMemory>
    requires { AllByRecursion (M.valid m.now) (values_of answer) }
    ensures value { IfOk result (λ reading. reading.value
        ≡ sum_of (M.add m.now) (values_of answer)) }
    ensures numbers { IfOk result (λ reading. (reading.published ≡ answer.published_to)
        × (reading.cover ≡ answer.cover)) }
{
    let Answer {
        base,
        published,
        online,
        cover,
        published_to,
        floor: _,
    } = answer;
    let mut values = Vec::new(alloc);
    if let Some(base) = base {
        values.push(base)?;
    }
    push_values(&mut values, published)?;
    push_values(&mut values, online)?;
    let value = fold_list(alloc, m, values)?;
    Ok(Reading {
        value,
        published: published_to,
        cover,
    })
}

fn push_values<E: Drop>(values: &mut Vec<E>, sums: Sums<E>) -> Result<(), NoMemory>
    ensures { OnOk result (values.new.items ≡ values.old.items ++ map (λ sum. sum.1) sums) }
{
    for (_, value) in sums.into_vec() {
        values.push(value)?;
    }
    Ok(())
}
