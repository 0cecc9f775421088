//! Texts and their spellings: UTF-8 texts, lines and columns, decimals, escapes.
#![tactic(auto)]

mod columns;
mod decimal;
mod escaping;
mod fields;
mod key;
mod lines;
mod maximal;
mod printed;
mod range_texts;
mod ranges;
mod splitting;
mod text;

pub use columns::Columns;
pub use decimal::{read_i64, read_u64, write_i64, write_u64};
pub use escaping::{escape, unescape};
pub use fields::{field_escape, field_unescape};
pub use lines::{Line, Lines};
pub use ranges::Ranges;
pub use text::{NoMemory, Text};
