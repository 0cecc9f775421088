//! Checked expressions and streams: what each expression is, with its type, or its first fault.
#![tactic(auto)]

mod agreement;
mod copying;
mod expressions;
mod fault;
mod flow;
mod nodes;
mod sizes;
mod tables;
mod term;
mod typed;
mod written;

pub use agreement::join;
pub use copying::{copy, copy_fields};
pub use expressions::expr;
pub use fault::Fault;
pub use flow::Flow;
pub use nodes::{MOST_LEAVES, MOST_NODES};
pub use sizes::{capped, count_field_leaves, count_field_nodes, count_leaves, count_nodes};
pub use tables::{list_of, option_of, pair_of};
pub use term::{Comparison, Double, Single, Term};
pub use typed::Typed;
pub use written::{scalar_type, written_type};
