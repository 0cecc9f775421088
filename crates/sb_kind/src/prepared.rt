//! The element that one value gives.
ghost use Rattle.std.specs.Prelude.{◌≡◌, [], ◌∷◌, IfOk};
ghost use Rattle.sb_gather.specs.Tops.{by_rank, IsTop};
ghost use Rattle.sb_kind.specs.Elements.{IsOf, text_cmp};
ghost use Rattle.sb_kind.specs.KindView.{monoid_of};
ghost use Rattle.sb_kind.specs.declared.agg.Agg.{Map};
ghost use Rattle.sb_sketch.specs.Cms.{AreCounts, counts_of};
ghost use Rattle.sb_sketch.specs.Hll.{AreRegisters, registers_of};
ghost use Rattle.sb_kind.specs.Prepared.{int_in, text_in, first_in, second_in, prepared};

use crate::agg::{Agg, Tops, pair_of};
use crate::kind::Kind;
use crate::many::Many;
use sb_gather::TopM;
use sb_laws::{Items, NoMemory};
use sb_sketch::{Cells, CmsM, HllM, Registers};
use sb_text::Text;
use sb_types::Val;
use std::alloc::Global;

fn into_int(v: Val) -> i64
    ensures { result ≡ int_in v }
{
    match v {
        Val::Int(number) => number,
        _ => 0,
    }
}

fn into_text(alloc: Global, v: Val) -> Text
    ensures { result ≡ text_in v }
{
    match v {
        Val::Text(text) => text,
        _ => Text::from_string(String::new(alloc)),
    }
}

fn into_halves(v: Val) -> (Val, Val)
    ensures first { result.0 ≡ first_in v }
    ensures second { result.1 ≡ second_in v }
{
    match v {
        Val::Pair(left, right) => (left.into_inner(), right.into_inner()),
        _ => (Val::Int(0), Val::Int(0)),
    }
}

fn one<T: Drop>(alloc: Global, item: T) -> Result<Vec<T>, NoMemory>
    ensures { IfOk result (λ list. list.items ≡ item ∷ []) }
{
    let mut list = Vec::with_capacity(alloc, 1)?;
    list.push(item)?;
    Ok(list)
}

fn one_value(alloc: Global, v: Val) -> Result<Items<Val>, NoMemory>
    ensures { IfOk result (λ values. values ≡ v ∷ []) }
{
    Ok(Items::from_vec(one(alloc, v)?))
}

fn one_item(top: &TopM<Text>, alloc: Global, v: Val) -> Result<Tops, NoMemory>
    ensures items { IfOk result
        (λ items. items ≡ (int_in (first_in v), text_in (second_in v)) ∷ []) }
    ensures valid { IfOk result (IsTop (by_rank text_cmp) top.now) }
{
    let (score, item) = into_halves(v);
    top.one(alloc, into_int(score), into_text(alloc, item))
}

fn one_count(cms: &CmsM, alloc: Global, v: Val) -> Result<Cells, NoMemory>
    ensures cells { IfOk result (λ cells. cells ≡ counts_of cms.now (text_in v)) }
    ensures valid { IfOk result (AreCounts cms.now) }
{
    let item = into_text(alloc, v);
    cms.one(alloc, item.as_bytes())
}

fn one_position(hll: &HllM, alloc: Global, v: Val) -> Registers
    ensures registers { result ≡ registers_of hll.now (text_in v) }
    ensures valid { AreRegisters hll.now result }
{
    let item = into_text(alloc, v);
    hll.one(item.as_bytes())
}

fn map_of(alloc: Global, key: Val, part: Agg) -> Result<Agg, NoMemory>
    ensures { IfOk result (λ a. a ≡ Map ((key, part) ∷ [])) }
{
    Ok(Agg::Map(Many::from_vec(one(alloc, (key, part))?)))
}

/// The element that one value gives, for a value of the kind's value type: an int for `sum`, `min` and `max`, a pair of an
/// int and a text for `top`, a text for the sketches, a pair for `pair` and `map`, and any value for the others.
pub fn prepare(alloc: Global, kind: &Kind, v: Val) -> Result<Agg, NoMemory>
    ensures element { IfOk result (λ a. a ≡ prepared (monoid_of kind.now) v) }
    ensures valid { IfOk result (IsOf (monoid_of kind.now)) }
{
    match kind {
        Kind::Sum => Ok(Agg::Sum(into_int(v))),
        Kind::Min => Ok(Agg::Min(into_int(v))),
        Kind::Max => Ok(Agg::Max(into_int(v))),
        Kind::First => Ok(Agg::First(v)),
        Kind::Last => Ok(Agg::Last(v)),
        Kind::Concat => Ok(Agg::Concat(one_value(alloc, v)?)),
        Kind::Set => Ok(Agg::Set(one_value(alloc, v)?)),
        Kind::Top(top) => Ok(Agg::Top(one_item(top, alloc, v)?)),
        Kind::Cms(cms) => Ok(Agg::Cms(one_count(cms, alloc, v)?)),
        Kind::Hll(hll) => Ok(Agg::Hll(one_position(hll, alloc, v))),
        Kind::Pair(left_kind, right_kind) => {
            let (left, right) = into_halves(v);
            let left = match prepare(alloc, left_kind.get(), left) {
                Ok(left) => left,
                Err(refused) => {
                    drop(right);
                    return Err(refused);
                }
            };
            match prepare(alloc, right_kind.get(), right) {
                Ok(right) => pair_of(alloc, left, right),
                Err(refused) => {
                    drop(left);
                    Err(refused)
                }
            }
        }
        Kind::Map(part_kind) => {
            let (key, value) = into_halves(v);
            match prepare(alloc, part_kind.get(), value) {
                Ok(part) => map_of(alloc, key, part),
                Err(refused) => {
                    drop(key);
                    Err(refused)
                }
            }
        }
    }
}
