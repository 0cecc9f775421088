//! The commands: from words, files and a sink to the bytes that are written and the status.
#![tactic(auto)]

mod answering;
mod batch;
mod check;
mod ending;
mod laws;
mod live;
mod report;
mod summing;
mod top;

pub use batch::batch_command;
pub use check::check_command;
pub use laws::{script_output_is_transcript, shards_are_not_written};
pub use top::summingbird;
