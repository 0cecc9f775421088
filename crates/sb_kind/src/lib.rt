//! Monoids of any text.
#![tactic(auto)]

mod adding;
mod agg;
mod boxed;
mod copying;
mod dictionary;
mod keyed;
mod kind;
mod many;
mod parts;
mod plus;
mod prepared;
mod reading;
mod sorted;
mod undoing;
mod undone;
mod writing;

pub use agg::{Agg, Aggs, Tops};
pub use boxed::Boxed;
pub use copying::copy;
pub use dictionary::{KindM, OnlineM};
pub use kind::{Kind, commutes};
pub use many::Many;
pub use prepared::prepare;
pub use reading::read;
pub use writing::text;
