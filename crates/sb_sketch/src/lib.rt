//! Count-min sketches and HyperLogLog as dictionaries.
#![tactic(auto)]

mod cells;
mod cms;
mod counts;
mod hash;
mod hll;
mod places;
mod registers;
mod undone;

pub use cms::CmsM;
pub use counts::Cells;
pub use hll::HllM;
pub use registers::Registers;
pub use undone::{CellsUndone, RegistersUndone};
