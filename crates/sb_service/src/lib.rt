//! Frozen services: the rows of a service's text, and the look-up in them.
#![tactic(auto)]

mod field;
mod laws;
mod rows;
mod service;
mod service_error;

pub use field::read_field;
pub use laws::look_ups_find_lines;
pub use service::{Service, read_service};
pub use service_error::ServiceError;
