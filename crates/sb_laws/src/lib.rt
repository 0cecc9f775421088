//! Semigroups as dictionaries with their laws, sums by them, and a count of steps.
#![tactic(auto)]

mod folds;
mod items;
mod key;
mod semigroup;
mod steps;
mod undo;

pub use folds::{fold_list, fold_tree, regroup};
pub use items::Items;
pub use key::Key;
pub use semigroup::{Commuting, Monoid, NoMemory, Semigroup};
pub use steps::Steps;
pub use undo::Undo;
