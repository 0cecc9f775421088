//! Dictionaries of numbers and lists, and the folds over them.
ghost use Rattle.std.specs.Prelude.{◌≡◌, IfOk};

use crate::bounds::{is_of_zero, regrouped, taken_back};
use crate::expecting::{equal, holds};
use crate::greater::Greater;
use sb_laws::{Items, Key, NoMemory, fold_list, fold_tree};
use sb_scalars::{ConcatM, FirstM, LastM, MaxM, MinM, SumM};
use std::alloc::Global;
use std::test::Fail;

fn list(alloc: Global, numbers: &[i64]) -> Result<Vec<i64>, NoMemory>
    ensures { IfOk result (λ list. list.items ≡ numbers.now) }
{
    let mut list = Vec::new(alloc);
    list.extend_from_slice(numbers)?;
    Ok(list)
}

#[test]
fn sums_of_numbers(rt: HostRuntime) -> Result<(), Fail> {
    let alloc = rt.alloc();
    let numbers = [5, -5, 7].as_slice();
    equal(
        &rt,
        fold_tree(alloc, &SumM::new(), list(alloc, numbers)?)?,
        Some(7),
    );
    equal(
        &rt,
        fold_tree(alloc, &MinM::new(), list(alloc, numbers)?)?,
        Some(-5),
    );
    equal(
        &rt,
        fold_tree(alloc, &MaxM::new(), list(alloc, numbers)?)?,
        Some(7),
    );
    equal(
        &rt,
        fold_list(alloc, &FirstM::<i64>::new(), list(alloc, numbers)?)?,
        Some(5),
    );
    equal(
        &rt,
        fold_list(alloc, &LastM::<i64>::new(), list(alloc, numbers)?)?,
        Some(7),
    );
    equal(
        &rt,
        regrouped(alloc, &SumM::new(), i64::MAX, 1)?,
        Some(i64::MIN),
    );
    equal(&rt, regrouped(alloc, &MinM::new(), 7, -5)?, Some(-5));
    equal(&rt, regrouped(alloc, &MaxM::new(), -5, 7)?, Some(7));
    Ok(())
}

#[test]
fn a_plus_is_taken_back_or_refused(rt: HostRuntime) -> Result<(), Fail> {
    let alloc = rt.alloc();
    equal(&rt, taken_back(alloc, &SumM::new(), &1, 2)?, 1);
    equal(&rt, taken_back(alloc, &MinM::new(), &3, 2)?, 3);
    equal(&rt, taken_back(alloc, &MaxM::new(), &1, 2)?, 1);
    equal(&rt, taken_back(alloc, &FirstM::<i64>::new(), &1, 2)?, 1);
    equal(&rt, taken_back(alloc, &LastM::<i64>::new(), &1, 2)?, 1);
    holds(
        &rt,
        fold_list(alloc, &Greater, list(alloc, &[5, 13])?).is_err(),
    );
    holds(
        &rt,
        fold_tree(alloc, &Greater, list(alloc, &[5, 13])?).is_err(),
    );
    Ok(())
}

#[test]
fn items_are_joined(rt: HostRuntime) -> Result<(), Fail> {
    let alloc = rt.alloc();
    let m = ConcatM::<i64>::new();
    holds(&rt, is_of_zero(alloc, &m)?);
    holds(&rt, is_of_zero(alloc, &SumM::new())?);
    let a = Items::from_vec(list(alloc, &[1])?);
    let same = taken_back(alloc, &m, &a, Items::from_vec(list(alloc, &[2])?))?;
    equal(&rt, same.as_slice(), [1].as_slice());
    let mut items = a.copy(alloc)?;
    items.append(Items::from_vec(list(alloc, &[3, 2])?))?;
    equal(&rt, items.len(), 3);
    items.truncate(2);
    equal(&rt, items.take().as_slice(), [1, 3].as_slice());
    holds(&rt, items.is_empty());
    equal(&rt, items.into_vec().len(), 0);
    equal(&rt, Key::copy(&-3_i64, alloc)?, -3);
    Ok(())
}
