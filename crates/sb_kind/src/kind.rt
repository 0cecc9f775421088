//! The monoid that a text names.
ghost use Rattle.std.specs.Prelude.{◌≡◌, ◌↔◌, IsSome, IsTrue, IfOk, IfSome};
ghost use Rattle.sb_kind.specs.KindView.{monoid_of};
ghost use Rattle.sb_kind.specs.Monoids.{monoid_in, IsWithin, commutes, tops, sketches, registers};

use crate::boxed::Boxed;
use sb_gather::TopM;
use sb_laws::NoMemory;
use sb_sketch::{CmsM, HllM};
use sb_text::Text;
use sb_types::Mono;
use std::alloc::Global;

/// The monoid of a text, with numbers that are within their limits. A text has at most 256 nodes, which bounds every
/// recursion over its kind.
#[derive(Drop)]
pub enum Kind {
    Sum,
    Min,
    Max,
    First,
    Last,
    Concat,
    Set,
    Top(TopM<Text>),
    Cms(CmsM),
    Hll(HllM),
    Pair(Boxed<Kind>, Boxed<Kind>),
    Map(Boxed<Kind>),
}

impl Kind {
    /// The kind of a text, and none exactly where a number in it is outside its limit: 1 to 1,024 places of a top,
    /// 1 to 16 rows and at most 4,096 cells of a count-min sketch, 4 to 12 bits of a HyperLogLog.
    pub fn new(alloc: Global, mono: &Mono) -> Result<Option<Kind>, NoMemory>
        ensures monoid { IfOk result (λ kind.
            IfSome kind (λ kind. monoid_of kind ≡ monoid_in mono.now)) }
        ensures within { IfOk result (λ kind. IsSome kind ↔ IsWithin (monoid_in mono.now)) }
    {
        kind_of(alloc, mono)
    }
}

fn kind_of(alloc: Global, mono: &Mono) -> Result<Option<Kind>, NoMemory>
    ensures monoid { IfOk result (λ kind. IfSome kind
        (λ kind. monoid_of kind ≡ monoid_in mono.now)) }
    ensures within { IfOk result (λ kind. IsSome kind ↔ IsWithin (monoid_in mono.now)) }
{
    match mono {
        Mono::Sum => Ok(Some(Kind::Sum)),
        Mono::Min => Ok(Some(Kind::Min)),
        Mono::Max => Ok(Some(Kind::Max)),
        Mono::First => Ok(Some(Kind::First)),
        Mono::Last => Ok(Some(Kind::Last)),
        Mono::Concat => Ok(Some(Kind::Concat)),
        Mono::Set => Ok(Some(Kind::Set)),
        Mono::Top(k) => Ok(top_of(*k)),
        Mono::Cms(d, w) => Ok(cms_of(*d, *w)),
        Mono::Hll(b) => Ok(hll_of(*b)),
        Mono::Pair(left, right) => {
            let Some(left) = kind_of(alloc, left.get())? else {
                return Ok(None);
            };
            let Some(right) = kind_of(alloc, right.get())? else {
                return Ok(None);
            };
            Ok(Some(Kind::Pair(Boxed::new(alloc, left)?, Boxed::new(alloc, right)?)))
        }
        Mono::Map(part) => {
            let Some(part) = kind_of(alloc, part.get())? else {
                return Ok(None);
            };
            Ok(Some(Kind::Map(Boxed::new(alloc, part)?)))
        }
    }
}

fn top_of(k: u32) -> Option<Kind>
    ensures monoid { IfSome result (λ kind. monoid_of kind ≡ tops k) }
    ensures within { IsSome result ↔ IsWithin (tops k) }
{
    Some(Kind::Top(TopM::new(k)?))
}

fn cms_of(d: u32, w: u32) -> Option<Kind>
    ensures monoid { IfSome result (λ kind. monoid_of kind ≡ sketches d w) }
    ensures within { IsSome result ↔ IsWithin (sketches d w) }
{
    Some(Kind::Cms(CmsM::new(d, w)?))
}

fn hll_of(b: u32) -> Option<Kind>
    ensures monoid { IfSome result (λ kind. monoid_of kind ≡ registers b) }
    ensures within { IsSome result ↔ IsWithin (registers b) }
{
    Some(Kind::Hll(HllM::new(b)?))
}

/// Whether the order of what is added doesn't matter: not for `first`, `last` and `concat`, for a pair where both parts commute,
/// for a map where its part does, and for the others.
pub fn commutes(kind: &Kind) -> bool
    ensures { result ≡ commutes (monoid_of kind.now) }
{
    match kind {
        Kind::First | Kind::Last | Kind::Concat => false,
        Kind::Pair(left, right) => commutes(left.get()) && commutes(right.get()),
        Kind::Map(part) => commutes(part.get()),
        _ => true,
    }
}
