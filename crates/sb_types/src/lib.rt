//! Types and values of programs: their order, their texts, and keys read from texts.
#![tactic(auto)]

mod copying;
mod laws;
mod leaves;
mod order;
mod reading;
mod types;
mod values;
mod writing;

pub use copying::copy;
pub use laws::{
    keys_are_values, keys_have_own_texts, order_by_cases, order_is_total, views_are_exact,
};
pub use leaves::{expect, split_leaf};
pub use order::compare;
pub use reading::{read, read_front, read_key};
pub use types::{Field, Fields, Mono, Ty};
pub use values::{LogRecord, Val, Vals};
pub use writing::text;
