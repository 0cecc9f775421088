//! Inputs: the files that a command names, read in order, or the first refusal with its line.
#![tactic(auto)]

mod batch_inputs;
mod error_line;
mod files;
mod inputs;
mod logs;
mod name;
mod names;
mod programs;
mod refusal;
mod scripts;
mod services;

pub use batch_inputs::{BatchInputs, load_batch};
pub use error_line::ErrorLine;
pub use inputs::{Inputs, load};
pub use name::Name;
pub use programs::Loaded;
pub use refusal::{CheckKind, Refusal, Which};
