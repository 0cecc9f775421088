//! Times and batches at the ends of batches and of times.
use crate::Batcher;
use std::test::Fail;

fn batch(length: i64, from: i64, t: i64) -> Option<u64> {
    Batcher::new(length, from)?.batch_of(t)
}

fn earliest(length: i64, from: i64, b: u64) -> Option<i64> {
    Batcher::new(length, from)?.earliest_of(b)
}

#[test]
fn times_fall_into_batches(rt: HostRuntime) -> Result<(), Fail> {
    let times = [
        (0, 0, 0, None),
        (1000, 0, 999, Some(0)),
        (1000, 0, 1000, Some(1)),
        (1000, 0, -1, None),
        (1, i64::MIN, i64::MAX, Some(u64::MAX)),
    ];
    for (length, from, t, due) in times {
        assert_eq!(rt; batch(length, from, t), due);
    }
    Ok(())
}

#[test]
fn batches_begin_at_times(rt: HostRuntime) -> Result<(), Fail> {
    let batches = [
        (1000, 0, 9223372036854775, Some(9223372036854775000)),
        (1000, 0, 9223372036854776, None),
        (1, i64::MIN, u64::MAX, Some(i64::MAX)),
        (i64::MAX, i64::MAX, u64::MAX, None),
    ];
    for (length, from, b, due) in batches {
        assert_eq!(rt; earliest(length, from, b), due);
    }
    Ok(())
}
