//! Elements that are lists at the front of the bytes.
ghost use Rattle.std.specs.Prelude.{◌≡◌, ◌==◌, ◌*◌, false, length, Some, None, IfOk, MatchOption, option_map};
ghost use Rattle.sb_types.specs.TyView.{type_of};
ghost use Rattle.sb_kind.specs.Elements.{val_cmp};
ghost use Rattle.sb_kind.specs.Read.{found, found_of, made, val_front, item_front, cell_front, after_comma, item_at, items_front, bracketed, any_list, is_sorted, is_top};
ghost use Rattle.sb_kind.specs.declared.agg.Agg.{Concat, Set, Top, Cms};

use super::leaves::{read_number, read_value};
use crate::agg::Agg;
use crate::keyed::ValueSets;
use crate::sorted::is_sorted;
use sb_gather::TopM;
use sb_laws::{Items, NoMemory};
use sb_sketch::{Cells, CmsM};
use sb_text::{Text, read_u64, unescape};
use sb_types::{Ty, Val, expect, split_leaf};
use std::alloc::Global;

/// What follows the comma before this place. Before the first stands none.
pub fn after_comma(at: usize, bytes: &[u8]) -> Option<&[u8]>
    ensures { MatchOption result (after_comma at bytes.now ≡ None)
        (λ rest. after_comma at bytes.now ≡ Some rest.now) }
{
    if at == 0 {
        Some(bytes)
    } else {
        expect(b',', bytes)
    }
}

fn value_at<'a>(
    alloc: Global,
    of: &Ty,
    at: usize,
    bytes: &'a [u8],
) -> Result<Option<(Val, &'a [u8])>, NoMemory>
    ensures { IfOk result (λ read. option_map found_of read
        ≡ item_at (val_front (type_of of.now)) at bytes.now) }
{
    match after_comma(at, bytes) {
        Some(bytes) => read_value(alloc, of, bytes),
        None => Ok(None),
    }
}

// The values that stand at the front of the bytes, with a comma between each two. So with the other lists.
fn read_values<'a>(
    alloc: Global,
    of: &Ty,
    bytes: &'a [u8],
) -> Result<(Vec<Val>, &'a [u8]), NoMemory>
    ensures { IfOk result (λ read. found read.0.items read.1.now
        ≡ items_front (val_front (type_of of.now)) bytes.now) }
{
    let mut values = Vec::new(alloc);
    let mut rest = bytes;
    for at in 0..bytes.len() {
        let Some((value, after)) = value_at(alloc, of, at, rest)? else {
            return Ok((values, rest));
        };
        values.push(value)?;
        rest = after;
    }
    Ok((values, rest))
}

/// A list of values.
pub fn read_concat<'a>(
    alloc: Global,
    of: &Ty,
    bytes: &'a [u8],
) -> Result<Option<(Agg, &'a [u8])>, NoMemory>
    ensures { IfOk result (λ read. option_map found_of read
        ≡ made Concat (bracketed 91 93 (val_front (type_of of.now)) any_list bytes.now)) }
{
    let Some(bytes) = expect(b'[', bytes) else {
        return Ok(None);
    };
    let (values, bytes) = read_values(alloc, of, bytes)?;
    let Some(bytes) = expect(b']', bytes) else {
        return Ok(None);
    };
    Ok(Some((Agg::Concat(Items::from_vec(values)), bytes)))
}

/// A set of values, by rising value.
pub fn read_set<'a>(
    alloc: Global,
    of: &Ty,
    bytes: &'a [u8],
) -> Result<Option<(Agg, &'a [u8])>, NoMemory>
    ensures { IfOk result (λ read. option_map found_of read
        ≡ made Set (bracketed 123 125 (val_front (type_of of.now)) (is_sorted false val_cmp)
        bytes.now)) }
{
    let Some(bytes) = expect(b'{', bytes) else {
        return Ok(None);
    };
    let (values, bytes) = read_values(alloc, of, bytes)?;
    if !is_sorted(&ValueSets, false, values.as_slice()) {
        return Ok(None);
    }
    let Some(bytes) = expect(b'}', bytes) else {
        return Ok(None);
    };
    Ok(Some((Agg::Set(Items::from_vec(values)), bytes)))
}

// A score and its item, in parentheses.
fn read_item(alloc: Global, bytes: &[u8]) -> Result<Option<((i64, Text), &[u8])>, NoMemory>
    ensures { IfOk result (λ read. option_map found_of read ≡ item_front bytes.now) }
{
    let Some(bytes) = expect(b'(', bytes) else {
        return Ok(None);
    };
    let Some((score, bytes)) = read_number(bytes) else {
        return Ok(None);
    };
    let Some(bytes) = expect(b',', bytes) else {
        return Ok(None);
    };
    let (leaf, bytes) = split_leaf(bytes);
    let Some(item) = unescape(alloc, leaf)? else {
        return Ok(None);
    };
    let Some(bytes) = expect(b')', bytes) else {
        return Ok(None);
    };
    Ok(Some(((score, item), bytes)))
}

fn scored_at(
    alloc: Global,
    at: usize,
    bytes: &[u8],
) -> Result<Option<((i64, Text), &[u8])>, NoMemory>
    ensures { IfOk result (λ read. option_map found_of read ≡ item_at item_front at bytes.now) }
{
    match after_comma(at, bytes) {
        Some(bytes) => read_item(alloc, bytes),
        None => Ok(None),
    }
}

fn read_items(alloc: Global, bytes: &[u8]) -> Result<(Vec<(i64, Text)>, &[u8]), NoMemory>
    ensures { IfOk result (λ read. found read.0.items read.1.now
        ≡ items_front item_front bytes.now) }
{
    let mut items = Vec::new(alloc);
    let mut rest = bytes;
    for at in 0..bytes.len() {
        let Some((item, after)) = scored_at(alloc, at, rest)? else {
            return Ok((items, rest));
        };
        items.push(item)?;
        rest = after;
    }
    Ok((items, rest))
}

fn is_top(top: &TopM<Text>, items: &[(i64, Text)]) -> bool
    ensures { result ≡ is_top top.now items.now }
{
    items.len() <= top.places() && is_sorted(top, true, items)
}

/// Scored items, by falling score and then rising item.
pub fn read_top<'a>(
    top: &TopM<Text>,
    alloc: Global,
    bytes: &'a [u8],
) -> Result<Option<(Agg, &'a [u8])>, NoMemory>
    ensures { IfOk result (λ read. option_map found_of read
        ≡ made Top (bracketed 91 93 item_front (is_top top.now) bytes.now)) }
{
    let Some(bytes) = expect(b'[', bytes) else {
        return Ok(None);
    };
    let (items, bytes) = read_items(alloc, bytes)?;
    if !is_top(top, items.as_slice()) {
        return Ok(None);
    }
    let Some(bytes) = expect(b']', bytes) else {
        return Ok(None);
    };
    Ok(Some((Agg::Top(Items::from_vec(items)), bytes)))
}

fn cell_at(at: usize, bytes: &[u8]) -> Option<(u64, &[u8])>
    ensures { option_map found_of result ≡ item_at cell_front at bytes.now }
{
    let bytes = after_comma(at, bytes)?;
    let (leaf, rest) = split_leaf(bytes);
    let cell = read_u64(leaf)?;
    Some((cell, rest))
}

fn read_cells(alloc: Global, bytes: &[u8]) -> Result<(Vec<u64>, &[u8]), NoMemory>
    ensures { IfOk result (λ read. found read.0.items read.1.now
        ≡ items_front cell_front bytes.now) }
{
    let mut cells = Vec::new(alloc);
    let mut rest = bytes;
    for at in 0..bytes.len() {
        let Some((cell, after)) = cell_at(at, rest) else {
            return Ok((cells, rest));
        };
        cells.push(cell)?;
        rest = after;
    }
    Ok((cells, rest))
}

/// The cells of a count-min sketch.
pub fn read_cms<'a>(
    cms: &CmsM,
    alloc: Global,
    bytes: &'a [u8],
) -> Result<Option<(Agg, &'a [u8])>, NoMemory>
    ensures { IfOk result (λ read. option_map found_of read
        ≡ made Cms (bracketed 91 93 cell_front
        (λ cells. length cells == cms.now.rows * cms.now.width) bytes.now)) }
{
    let Some(bytes) = expect(b'[', bytes) else {
        return Ok(None);
    };
    let (cells, bytes) = read_cells(alloc, bytes)?;
    if cells.len() != cms.cells() {
        return Ok(None);
    }
    let Some(bytes) = expect(b']', bytes) else {
        return Ok(None);
    };
    Ok(Some((Agg::Cms(Cells::from_vec(cells)), bytes)))
}
