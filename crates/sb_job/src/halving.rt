//! How often work is halved for the processors.
ghost use Rattle.std.specs.Prelude.{◌≤◌};

use std::thread::{Threads, available_parallelism};

/// How often work is halved, so that each processor has a part of it: at most 6 times, and not where their number isn't
/// known.
pub fn halvings<R: Threads>(rt: &R) -> u32
    ensures { result ≤ 6 }
{
    let processors = match available_parallelism(rt) {
        Ok(number) => number.get(),
        Err(_) => 1,
    };
    match processors {
        0 | 1 => 0,
        2 => 1,
        3..=4 => 2,
        5..=8 => 3,
        9..=16 => 4,
        17..=32 => 5,
        _ => 6,
    }
}
