//! The elements of the monoids of any text.
ghost use Rattle.std.specs.Prelude.{◌≡◌, IfOk};
ghost use Rattle.sb_kind.specs.declared.agg.Agg.{Pair};

use crate::boxed::Boxed;
use crate::many::Many;
use sb_gather::{Keys, Scored};
use sb_laws::{Items, NoMemory};
use sb_sketch::{Cells, Registers};
use sb_text::Text;
use sb_types::Val;
use std::alloc::Global;

/// Scored texts, by falling score and then rising text.
pub type Tops = Scored<Text>;

/// The entries of a map, by rising key.
pub type Aggs = Many<(Val, Agg)>;

/// The element of any kind.
#[derive(Drop)]
pub enum Agg {
    Sum(i64),
    Min(i64),
    Max(i64),
    First(Val),
    Last(Val),
    Concat(Items<Val>),
    /// By rising value.
    Set(Keys<Val>),
    Top(Tops),
    Cms(Cells),
    Hll(Registers),
    Pair(Boxed<Agg>, Boxed<Agg>),
    Map(Aggs),
}

/// A pair of two elements.
pub fn pair_of(alloc: Global, left: Agg, right: Agg) -> Result<Agg, NoMemory>
    ensures { IfOk result (λ a. a ≡ Pair left right) }
{
    match Boxed::new(alloc, left) {
        Ok(left) => pair_with(alloc, left, right),
        Err(refused) => {
            drop(right);
            Err(refused)
        }
    }
}

fn pair_with(alloc: Global, left: Boxed<Agg>, right: Agg) -> Result<Agg, NoMemory>
    ensures { IfOk result (λ a. a ≡ Pair left right) }
{
    match Boxed::new(alloc, right) {
        Ok(right) => Ok(Agg::Pair(left, right)),
        Err(refused) => {
            drop(left);
            Err(refused)
        }
    }
}
