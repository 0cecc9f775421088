//! Copies of kinds.
ghost use Rattle.std.specs.Prelude.{◌≡◌, IfOk};
ghost use Rattle.sb_kind.specs.KindView.{monoid_of};
ghost use Rattle.sb_kind.specs.Monoids.{tops};

use sb_gather::TopM;
use sb_kind::{Boxed, Kind};
use sb_text::{NoMemory, Text};
use std::alloc::{AllocError, Global};

/// The kind of the same monoid.
pub fn copy_kind(alloc: Global, kind: &Kind) -> Result<Kind, NoMemory>
    ensures { IfOk result (λ copied. monoid_of copied ≡ monoid_of kind.now) }
{
    match kind {
        Kind::Sum => Ok(Kind::Sum),
        Kind::Min => Ok(Kind::Min),
        Kind::Max => Ok(Kind::Max),
        Kind::First => Ok(Kind::First),
        Kind::Last => Ok(Kind::Last),
        Kind::Concat => Ok(Kind::Concat),
        Kind::Set => Ok(Kind::Set),
        Kind::Top(top) => copy_top(top),
        Kind::Cms(cms) => Ok(Kind::Cms(*cms)),
        Kind::Hll(hll) => Ok(Kind::Hll(*hll)),
        Kind::Pair(left, right) => {
            let left = copy_kind(alloc, left.get())?;
            let right = copy_kind(alloc, right.get())?;
            Ok(Kind::Pair(Boxed::new(alloc, left)?, Boxed::new(alloc, right)?))
        }
        Kind::Map(part) => {
            let part = copy_kind(alloc, part.get())?;
            Ok(Kind::Map(Boxed::new(alloc, part)?))
        }
    }
}

// Every top has 1 to 1,024 places, so the error doesn't come.
fn copy_top(top: &TopM<Text>) -> Result<Kind, NoMemory>
    ensures { IfOk result (λ copied. monoid_of copied ≡ tops top.now) }
{
    let Ok(places) = u32::try_from(top.places()) else {
        return Err(AllocError);
    };
    match TopM::new(places) {
        Some(top) => Ok(Kind::Top(top)),
        None => Err(AllocError),
    }
}
