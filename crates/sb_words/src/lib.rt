//! The words of a command line: from the words to the command that they are.
#![tactic(auto)]

mod clap_command;
mod command;
mod matches;
mod names;
mod numbers;
mod reading;
mod services;
mod settings;
mod words_error;

pub use command::{Command, Files, Settings};
pub use reading::words;
pub use words_error::WordsError;
