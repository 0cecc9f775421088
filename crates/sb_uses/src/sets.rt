//! Sets, maps and pairs.
ghost use Rattle.std.specs.Prelude.{◌≡◌, IfOk};
ghost use Rattle.std.specs.Ordering.{int_cmp};
ghost use Rattle.sb_gather.specs.Entries.{AreEntries};
ghost use Rattle.sb_gather.specs.Maps.{AnyKey, by_key};

use crate::bounds::{is_of_zero, single, taken_back, three};
use crate::expecting::{equal, holds};
use crate::greater::Greater;
use sb_gather::{Both, Entries, Keys, MapM, PairM, SetM};
use sb_laws::{Items, NoMemory};
use std::alloc::Global;
use std::test::Fail;

fn set_of(alloc: Global, key: i64) -> Result<Keys<i64>, NoMemory>
    ensures { IfOk result (λ set. AreEntries int_cmp AnyKey set) }
{
    Ok(Items::from_vec(single(alloc, key)?))
}

fn map_of(alloc: Global, key: i64, value: i64) -> Result<Entries<i64, i64>, NoMemory>
    ensures { IfOk result (λ map. AreEntries (by_key int_cmp) (λ _. Unit {0}) map) }
{
    Ok(Items::from_vec(single(alloc, (key, value))?))
}

fn pair_of(alloc: Global, key: i64, value: i64) -> Result<Both<Keys<i64>, i64>, NoMemory>
    ensures { IfOk result (λ pair. AreEntries int_cmp AnyKey pair.left × Unit {0}) }
{
    Ok(Both {
        left: set_of(alloc, key)?,
        right: value,
    })
}

fn deep_of(
    alloc: Global,
    key: i64,
    pair: Both<Keys<i64>, i64>,
) -> Result<Entries<i64, Both<Keys<i64>, i64>>, NoMemory>
    requires { AreEntries int_cmp AnyKey pair.left × Unit {0} }
    ensures { IfOk result (λ map. AreEntries (by_key int_cmp)
        (λ entry. AreEntries int_cmp AnyKey entry.1.left × Unit {0}) map) }
{
    Ok(Items::from_vec(single(alloc, (key, pair))?))
}

#[test]
fn a_map_of_pairs_of_sets(rt: HostRuntime) -> Result<(), Fail> {
    let alloc = rt.alloc();
    let m = MapM::<i64, PairM<SetM<i64>, Greater>>::new(PairM::new(SetM::new(), Greater));
    let a = deep_of(alloc, 1, pair_of(alloc, 5, 7)?)?;
    let b = deep_of(alloc, 1, pair_of(alloc, 4, 2)?)?;
    let c = deep_of(alloc, 0, pair_of(alloc, 9, 1)?)?;
    match three(alloc, &m, a, b, c)? {
        Some(map) => {
            let [_, entry] = map.as_slice() else {
                return Ok(holds(&rt, false));
            };
            equal(&rt, entry.1.left.as_slice(), [4, 5].as_slice());
            equal(&rt, entry.1.right, 7);
        }
        None => holds(&rt, false),
    }
    Ok(())
}

#[test]
fn parts_are_taken_back_or_refused(rt: HostRuntime) -> Result<(), Fail> {
    let alloc = rt.alloc();
    let m = PairM::<SetM<i64>, Greater>::new(SetM::new(), Greater);
    let a = pair_of(alloc, 5, 7)?;
    let same = taken_back(alloc, &m, &a, pair_of(alloc, 4, 8)?)?;
    equal(&rt, same.left.as_slice(), [5].as_slice());
    equal(&rt, same.right, 7);
    let same = taken_back(alloc, &m, &a, pair_of(alloc, 4, 13)?)?;
    equal(&rt, same.left.as_slice(), [5].as_slice());
    let map = MapM::<i64, Greater>::new(Greater);
    let same = taken_back(alloc, &map, &map_of(alloc, 1, 2)?, map_of(alloc, 1, 3)?)?;
    equal(&rt, same.as_slice(), [(1, 2)].as_slice());
    holds(&rt, is_of_zero(alloc, &map)?);
    let sets = PairM::<SetM<i64>, SetM<i64>>::new(SetM::new(), SetM::new());
    holds(&rt, is_of_zero(alloc, &sets)?);
    Ok(())
}
