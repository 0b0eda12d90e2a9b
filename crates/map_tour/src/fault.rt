//! Why the tour ends early.
use snap_model::OutOfMemory;
use snap_table::Full;
use std::io;

#[derive(Debug, Drop)]
pub enum Fault {
    /// A write found that no row was left.
    Full,
    /// Want of memory, when the table is opened.
    Memory,
    /// The terminal.
    Io(io::Error),
}

impl From<Full> for Fault {
    fn from(_: Full) -> Self {
        Fault::Full
    }
}

impl From<OutOfMemory> for Fault {
    fn from(_: OutOfMemory) -> Self {
        Fault::Memory
    }
}

impl From<io::Error> for Fault {
    fn from(error: io::Error) -> Self {
        Fault::Io(error)
    }
}
