//! Checked programs: the types and widths of their streams, what they declare, or their first refusal.
#![tactic(auto)]

mod admission;
mod check_error;
mod checked;
mod comments;
mod declarations;
mod log;
mod monoids;
mod names;
mod online;
mod statements;
mod stream_nodes;
mod streams;

pub use admission::{AdmitError, admit};
pub use check_error::CheckError;
pub use checked::{Checked, check};
pub use comments::write_comments;
pub use declarations::{LetDecl, ServiceDecl, SourceDecl, StoreDecl, Streamed};
pub use log::{LineKind, Log, LogError};
pub use online::Online;
