//! The tokens of a program text, read and written.
#![tactic(auto)]

mod first;
mod gaps;
mod keyword;
mod quoting;
mod symbol;
mod token;
mod tokens;
mod words;
mod writing;

pub use keyword::Keyword;
pub use symbol::Symbol;
pub use token::{Name, Quoted, Token};
pub use tokens::{BadToken, Tokens};
pub use writing::{write_int, write_keyword, write_name, write_symbol, write_text};
