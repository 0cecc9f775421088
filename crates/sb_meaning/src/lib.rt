//! What checked expressions and streams mean over a whole log, and what they feed to the stores of a program.
#![tactic(auto)]

mod emissions;
mod evaluation;
mod flows;
mod folds;
mod it;
mod joins;
mod kinds;
mod merges;
mod operations;
mod parts;
mod stages;
mod words;

pub use emissions::{Emitted, emit_all};
pub use evaluation::{lent, value};
pub use folds::slow_fold;
pub use it::It;
pub use joins::join;
pub use kinds::copy_kind;
pub use parts::{bytes_in, copy_part, elements_of, first_of, second_of};
pub use stages::is_true;
pub use words::{Words, word};
