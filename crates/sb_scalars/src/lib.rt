//! Sums, least and greatest numbers, first and last values, and joined lists as dictionaries.
#![tactic(auto)]

mod concat;
mod first_last;
mod min_max;
mod sum;

pub use concat::ConcatM;
pub use first_last::{FirstM, LastM};
pub use min_max::{MaxM, MinM};
pub use sum::SumM;
