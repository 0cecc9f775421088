//! Elements read from their texts.
ghost use Rattle.std.specs.Prelude.{◌≡◌, Some, IfOk, IfSome, option_map};
ghost use Rattle.sb_types.specs.Read.{expect};
ghost use Rattle.sb_types.specs.TyView.{type_of};
ghost use Rattle.sb_kind.specs.ElementText.{element_text};
ghost use Rattle.sb_kind.specs.Elements.{IsOf, val_cmp};
ghost use Rattle.sb_kind.specs.KindView.{monoid_of};
ghost use Rattle.sb_kind.specs.Monoids.{IsPair, maps};
ghost use Rattle.sb_kind.specs.Read.{found, found_of, behind, val_front, entry_front, item_at, items_front, halves, element_front, element_read};
ghost use Rattle.sb_kind.specs.Typed.{IsTyped};
ghost use Rattle.sb_kind.specs.declared.agg.Agg.{Agg, Pair};

mod leaves;
mod lists;

use self::leaves::{
    read_first, read_greatest, read_hll, read_last, read_least, read_sum, read_value,
};
use self::lists::{after_comma, read_cms, read_concat, read_set, read_top};
use crate::agg::{Agg, pair_of};
use crate::keyed::ByKey;
use crate::kind::Kind;
use crate::many::Many;
use crate::sorted::is_sorted;
use sb_laws::NoMemory;
use sb_types::{Ty, Val, expect};
use std::alloc::Global;

/// The element of which this is the text; `None` exactly where no valid element prints so whose values, or keys and
/// parts, have the types that `elem` gives them: the type itself, or for the parts of a pair and the keys and parts of
/// a map the two types of a pair.
pub fn read(alloc: Global, kind: &Kind, elem: &Ty, bytes: &[u8]) -> Result<Option<Agg>, NoMemory>
    ensures spelled { IfOk result (λ element.
        IfSome element (λ a. IsOf (monoid_of kind.now) a
        × IsTyped (monoid_of kind.now) (type_of elem.now) a × (bytes.now ≡ element_text a))) }
    ensures every { IfOk result (λ element. (a : Agg) → IsOf (monoid_of kind.now) a
        → IsTyped (monoid_of kind.now) (type_of elem.now) a → bytes.now ≡ element_text a
        → element ≡ Some a) }
{
    read_whole(alloc, kind, elem, bytes)
}

fn read_whole(alloc: Global, kind: &Kind, elem: &Ty, bytes: &[u8]) -> Result<Option<Agg>, NoMemory>
    ensures { IfOk result (λ element. element
        ≡ element_read (monoid_of kind.now) (type_of elem.now) bytes.now) }
{
    match read_front(alloc, kind, elem, bytes)? {
        Some((a, [])) => Ok(Some(a)),
        _ => Ok(None),
    }
}

// The types of the parts of a pair.
fn halves(ty: &Ty) -> Option<(&Ty, &Ty)>
    ensures { option_map (λ h. (type_of h.0.now, type_of h.1.now)) result
        ≡ halves (type_of ty.now) }
{
    match ty {
        Ty::Pair(first, second) => Some((first.get(), second.get())),
        _ => None,
    }
}

// The element at the front of the bytes, and what follows its text.
#[cycle(read)]
fn read_front<'a>(
    alloc: Global,
    kind: &Kind,
    elem: &Ty,
    bytes: &'a [u8],
) -> Result<Option<(Agg, &'a [u8])>, NoMemory>
    ensures { IfOk result (λ read. option_map found_of read
        ≡ element_front (monoid_of kind.now) (type_of elem.now) bytes.now) }
{
    match kind {
        Kind::Sum => Ok(read_sum(bytes)),
        Kind::Min => Ok(read_least(bytes)),
        Kind::Max => Ok(read_greatest(bytes)),
        Kind::First => read_first(alloc, elem, bytes),
        Kind::Last => read_last(alloc, elem, bytes),
        Kind::Concat => read_concat(alloc, elem, bytes),
        Kind::Set => read_set(alloc, elem, bytes),
        Kind::Top(top) => read_top(top, alloc, bytes),
        Kind::Cms(cms) => read_cms(cms, alloc, bytes),
        Kind::Hll(hll) => read_hll(hll, alloc, bytes),
        Kind::Pair(..) => read_pair(alloc, kind, elem, bytes),
        Kind::Map(part) => read_map(alloc, part.get(), elem, bytes),
    }
}

// The element behind this byte.
#[cycle(read)]
fn read_behind<'a>(
    byte: u8,
    alloc: Global,
    kind: &Kind,
    elem: &Ty,
    bytes: &'a [u8],
) -> Result<Option<(Agg, &'a [u8])>, NoMemory>
    ensures { IfOk result (λ read. option_map found_of read
        ≡ behind byte (element_front (monoid_of kind.now) (type_of elem.now)) bytes.now) }
{
    match expect(byte, bytes) {
        Some(bytes) => read_front(alloc, kind, elem, bytes),
        None => Ok(None),
    }
}

#[cycle(read)]
fn read_pair<'a>(
    alloc: Global,
    kind: &Kind,
    elem: &Ty,
    bytes: &'a [u8],
) -> Result<Option<(Agg, &'a [u8])>, NoMemory>
    requires { IsPair (monoid_of kind.now) }
    ensures { IfOk result (λ read. option_map found_of read
        ≡ element_front (monoid_of kind.now) (type_of elem.now) bytes.now) }
{
    let Kind::Pair(left, right) = kind else {
        unreachable!();
    };
    let Some((first, second)) = halves(elem) else {
        return Ok(None);
    };
    let Some((x, bytes)) = read_behind(b'(', alloc, left.get(), first, bytes)? else {
        return Ok(None);
    };
    match read_behind(b',', alloc, right.get(), second, bytes) {
        Ok(Some((y, bytes))) => closed(alloc, x, y, bytes),
        Ok(None) => {
            drop(x);
            Ok(None)
        }
        Err(refused) => {
            drop(x);
            Err(refused)
        }
    }
}

// The pair of both, where its parenthesis is closed.
fn closed<'a>(
    alloc: Global,
    x: Agg,
    y: Agg,
    bytes: &'a [u8],
) -> Result<Option<(Agg, &'a [u8])>, NoMemory>
    ensures { IfOk result (λ read. option_map found_of read
        ≡ option_map (found (Pair x y)) (expect 41 bytes.now)) }
{
    let Some(bytes) = expect(b')', bytes) else {
        drop(x);
        drop(y);
        return Ok(None);
    };
    let pair = pair_of(alloc, x, y)?;
    Ok(Some((pair, bytes)))
}

#[cycle(read)]
fn read_map<'a>(
    alloc: Global,
    part: &Kind,
    elem: &Ty,
    bytes: &'a [u8],
) -> Result<Option<(Agg, &'a [u8])>, NoMemory>
    ensures { IfOk result (λ read. option_map found_of read
        ≡ element_front (maps (monoid_of part.now)) (type_of elem.now) bytes.now) }
{
    let Some((key, value)) = halves(elem) else {
        return Ok(None);
    };
    let Some(bytes) = expect(b'{', bytes) else {
        return Ok(None);
    };
    let (entries, bytes) = read_entries(alloc, part, key, value, bytes)?;
    if !is_sorted(&ByKey, false, entries.as_slice()) {
        return Ok(None);
    }
    let Some(bytes) = expect(b'}', bytes) else {
        return Ok(None);
    };
    Ok(Some((Agg::Map(Many::from_vec(entries)), bytes)))
}

// The entries that stand at the front of the bytes, with a comma between each two.
#[cycle(read)]
fn read_entries<'a>(
    alloc: Global,
    part: &Kind,
    key: &Ty,
    value: &Ty,
    bytes: &'a [u8],
) -> Result<(Vec<(Val, Agg)>, &'a [u8]), NoMemory>
    ensures { IfOk result (λ read. found read.0.items read.1.now
        ≡ items_front (entry_front (val_front (type_of key.now))
        (element_front (monoid_of part.now) (type_of value.now))) bytes.now) }
{
    let mut entries = Vec::new(alloc);
    let mut rest = bytes;
    for at in 0..bytes.len() {
        let Some((entry, after)) = read_entry(alloc, part, key, value, at, rest)? else {
            return Ok((entries, rest));
        };
        entries.push(entry)?;
        rest = after;
    }
    Ok((entries, rest))
}

// A key and its part, behind the comma before this place.
#[cycle(read)]
fn read_entry<'a>(
    alloc: Global,
    part: &Kind,
    key: &Ty,
    value: &Ty,
    at: usize,
    bytes: &'a [u8],
) -> Result<Option<((Val, Agg), &'a [u8])>, NoMemory>
    ensures { IfOk result (λ read. option_map found_of read
        ≡ item_at (entry_front (val_front (type_of key.now))
        (element_front (monoid_of part.now) (type_of value.now))) at bytes.now) }
{
    let Some(bytes) = after_comma(at, bytes) else {
        return Ok(None);
    };
    let Some((key, bytes)) = read_value(alloc, key, bytes)? else {
        return Ok(None);
    };
    let Some((part, bytes)) = read_behind(b'=', alloc, part, value, bytes)? else {
        return Ok(None);
    };
    Ok(Some(((key, part), bytes)))
}
