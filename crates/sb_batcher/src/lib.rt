//! The batches into which times fall.
#![tactic(auto)]

mod batcher;
#[cfg(test)]
mod tests;

pub use batcher::Batcher;
