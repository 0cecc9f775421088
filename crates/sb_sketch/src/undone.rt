//! What takes a plus of two sketches back.
use crate::counts::Cells;
use crate::registers::Registers;
use sb_laws::Items;

/// What takes a plus of two count-min sketches back.
#[derive(Drop)]
pub enum CellsUndone {
    /// The earlier sketch.
    Cells(Cells),
    /// The places that were counted up, in a full list.
    Counted(Items<u16>),
}

/// What takes a plus of two HyperLogLogs back.
#[derive(Drop)]
pub enum RegistersUndone {
    /// The earlier registers.
    Registers(Registers),
    /// The one register that was raised, and what stood there.
    Raised(u16, u8),
    /// No register was raised.
    Nothing,
}
