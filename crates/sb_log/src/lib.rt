//! Logs: from the lines of a text to the records that they say.
#![tactic(auto)]

mod fields;
mod line_error;
mod log;
mod pieces;
mod reader;
mod record;

pub use log::read_log;
pub use pieces::Piece;
pub use reader::Records;
