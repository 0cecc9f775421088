//! Texts, numbers and sets of numbers, written and read again.
use crate::expecting::{equal, holds};
use sb_text::{NoMemory, Ranges, Text, field_escape, field_unescape};
use std::alloc::Global;
use std::process::Abort;
use std::test::Fail;

fn is_text(read: &Option<Text>, text: &str) -> bool {
    match read {
        Some(read) => read.as_bytes() == text.as_bytes(),
        None => false,
    }
}

#[test]
fn texts_are_spelled(rt: HostRuntime) -> Result<(), Fail> {
    let alloc = rt.alloc();
    let text = "\u{e9} \\\t\r\n";
    let field = "\u{e9} \\\\\\t\\r\\n";
    let mut out = Vec::new(alloc);
    field_escape(alloc, &mut out, text.as_bytes())?;
    equal(&rt, out.as_slice(), field.as_bytes());
    holds(&rt, is_text(&field_unescape(alloc, out.as_slice())?, text));
    let escaped = Text::from_string(String::from_str(alloc, text)?).escaped(alloc)?;
    equal(&rt, escaped.as_bytes(), "\u{e9}%20\\%09%0D%0A".as_bytes());
    let number = Text::from_i64(alloc, -10)?;
    equal(&rt, number.as_bytes(), b"-10".as_slice());
    Ok(())
}

fn set(alloc: Global, numbers: &[u64]) -> Result<Ranges, NoMemory> {
    let mut set = Ranges::new(alloc);
    for number in numbers {
        if *number < 1 << 32 {
            set.insert(*number)?;
        }
    }
    Ok(set)
}

// The set prints this text, from which it is read again.
fn expect_text(rt: &impl Abort, alloc: Global, set: &Ranges, text: &str) -> Result<(), NoMemory> {
    let mut out = Vec::new(alloc);
    set.text(&mut out)?;
    equal(rt, out.as_slice(), text.as_bytes());
    let read = Ranges::read(alloc, text.as_bytes())?;
    equal(rt, read.is_some_and(|r| r.count() == set.count()), true);
    Ok(())
}

#[test]
fn sets_print_their_maximal_ranges(rt: HostRuntime) -> Result<(), Fail> {
    let alloc = rt.alloc();
    let rows = [
        ([3, 5, 1], [4, 5, 9], "1-1,3-5,9-9"),
        (
            [0, 1, 2],
            [3, 4_294_967_295, 3],
            "0-3,4294967295-4294967295",
        ),
        ([7, 7, 7], [7, 6, 5], "5-7"),
    ];
    for (left, right, text) in rows {
        let mut both = set(alloc, left.as_slice())?;
        both.union(&set(alloc, right.as_slice())?)?;
        expect_text(&rt, alloc, &both, text)?;
    }
    expect_text(&rt, alloc, &set(alloc, [7, 6, 5].as_slice())?, "5-7")?;
    expect_text(&rt, alloc, &Ranges::new(alloc), "none")?;
    for text in ["", "0", "0-1,2-3", "3-2", "00-1", "0-4294967296"] {
        holds(&rt, Ranges::read(alloc, text.as_bytes())?.is_none());
    }
    Ok(())
}
