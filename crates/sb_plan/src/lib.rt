//! What the records of a log add to the stores of a program, as a feed.
#![tactic(auto)]

mod batch_runner;
mod emitting;
mod making;
mod online_runner;
mod parts;
mod paths;
mod plan;
mod running;
mod stores;
mod texts;

pub use batch_runner::Runner;
pub use online_runner::OnlineRunner;
pub use plan::{Plan, plan_of};
pub use texts::{key_text, text_of};
