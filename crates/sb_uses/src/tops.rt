//! The first of scored items.
use crate::bounds::{is_of_zero, regrouped, taken_back};
use crate::expecting::{equal, holds};
use sb_gather::TopM;
use std::test::Fail;

const A: i64 = 97;

const B: i64 = 98;

#[test]
fn a_top_has_at_most_1024_places(rt: HostRuntime) {
    holds(&rt, TopM::<i64>::new(1024).is_some());
    holds(&rt, TopM::<i64>::new(1025).is_none());
}

#[test]
fn ties_go_by_item(rt: HostRuntime) -> Result<(), Fail> {
    let alloc = rt.alloc();
    let Some(m) = TopM::<i64>::new(2) else {
        return Ok(holds(&rt, false));
    };
    holds(&rt, is_of_zero(alloc, &m)?);
    let same = taken_back(alloc, &m, &m.one(alloc, 5, B)?, m.one(alloc, 5, A)?)?;
    equal(&rt, same.as_slice(), [(5, B)].as_slice());
    let Some(top) = regrouped(alloc, &m, m.one(alloc, 5, B)?, m.one(alloc, 5, A)?)? else {
        return Ok(holds(&rt, false));
    };
    equal(&rt, top.as_slice(), [(5, A), (5, B)].as_slice());
    Ok(())
}
