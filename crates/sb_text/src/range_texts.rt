//! The text of ranges, written and read.
ghost use Rattle.std.specs.Prelude.{◌≡◌, ◌^◌, ◌<◌, ◌∷◌, ◌++◌, Some, None, OnOk, IfOk, IfSome, MatchOption, length, take, option_map};
ghost use Rattle.sb_text.specs.Columns.{pieces};
ghost use Rattle.sb_text.specs.Ranges.{range_text, ranges_joined};
ghost use Rattle.sb_text.specs.RangesRead.{pieces_left, cut, range_read, ranges_from, ranges_read};

use crate::NoMemory;
use crate::decimal::{read_natural, write_u64};
use crate::splitting::split_once;
use std::alloc::Global;

// The greatest number of a set.
const MOST: u64 = (1 << 32) - 1;

// Stops in the middle where it finds no memory; what stood before is there still.
pub(crate) fn push_ranges(
    alloc: Global,
    out: &mut Vec<u8>,
    ranges: &[(u64, u64)],
) -> Result<(), NoMemory>
    ensures ok { OnOk result (out.new.items ≡ out.old.items ++ ranges_joined ranges.now) }
    ensures front { take (length out.old.items) out.new.items ≡ out.old.items }
{
    let Some((first, rest)) = ranges.split_first() else {
        return out.extend_from_slice(b"none");
    };
    push_range(alloc, out, *first)?;
    for range in rest {
        push_next(alloc, out, *range)?;
    }
    Ok(())
}

fn push_next(alloc: Global, out: &mut Vec<u8>, range: (u64, u64)) -> Result<(), NoMemory>
    ensures ok { OnOk result (out.new.items ≡ out.old.items ++ 44 ∷ range_text range) }
    ensures front { take (length out.old.items) out.new.items ≡ out.old.items }
{
    out.push(b',')?;
    push_range(alloc, out, range)
}

fn push_range(alloc: Global, out: &mut Vec<u8>, range: (u64, u64)) -> Result<(), NoMemory>
    ensures ok { OnOk result (out.new.items ≡ out.old.items ++ range_text range) }
    ensures front { take (length out.old.items) out.new.items ≡ out.old.items }
{
    write_u64(alloc, out, range.0)?;
    out.push(b'-')?;
    write_u64(alloc, out, range.1)
}

pub(crate) fn read_set(alloc: Global, bytes: &[u8]) -> Result<Option<Vec<(u64, u64)>>, NoMemory>
    ensures { IfOk result (λ ranges. option_map (λ r. r.items) ranges ≡ ranges_read bytes.now) }
{
    if bytes == b"none".as_slice() {
        return Ok(Some(Vec::new(alloc)));
    }
    read_ranges(alloc, bytes)
}

fn read_ranges(alloc: Global, bytes: &[u8]) -> Result<Option<Vec<(u64, u64)>>, NoMemory>
    ensures { IfOk result (λ ranges. option_map (λ r. r.items) ranges
        ≡ ranges_from 0 (pieces 44 bytes.now)) }
{
    let mut ranges = Vec::new(alloc);
    let mut least = 0;
    let mut left = Some(bytes);
    while let Some(text) = left {
        let (piece, rest) = first_piece(text);
        let Some(range) = read_range(piece) else {
            return Ok(None);
        };
        if range.0 < least {
            return Ok(None);
        }
        ranges.push(range)?;
        // The next range leaves a number out, or the two were one range.
        least = range.1 + 2;
        left = rest;
    }
    Ok(Some(ranges))
}

// What stands before the first comma, and what follows it, if there is one.
fn first_piece(text: &[u8]) -> (&[u8], Option<&[u8]>)
    ensures value { pieces 44 text.now ≡ result.0.now ∷ pieces_left result.1 }
    ensures shorter { IfSome result.1 (λ rest. length rest.now < length text.now) }
{
    match split_once(text, b',') {
        Some((piece, rest)) => (piece, Some(rest)),
        None => (text, None),
    }
}

fn read_range(text: &[u8]) -> Option<(u64, u64)>
    ensures value { result ≡ range_read text.now }
    ensures bound { IfSome result (λ range. range.1 < 2 ^ 32) }
{
    let (low, high) = split_range(text)?;
    let low = read_natural(low, MOST)?;
    let high = read_natural(high, MOST)?;
    if low <= high { Some((low, high)) } else { None }
}

fn split_range(text: &[u8]) -> Option<(&[u8], &[u8])>
    ensures { MatchOption result (cut 45 text.now ≡ None)
        (λ parts. cut 45 text.now ≡ Some (parts.0.now, parts.1.now)) }
{
    split_once(text, b'-')
}
