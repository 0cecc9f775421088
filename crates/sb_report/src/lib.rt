//! Scripts, transcripts and reports: what a script asks, and the texts of the lines that answer.
#![tactic(auto)]

mod line;
mod rows;
mod script;

pub use line::{TranscriptLine, write_line};
pub use rows::{report, write_row};
pub use script::{Ask, ScriptError, read_script};
