//! Why a round has no figures.
use snap_model::OutOfMemory;
use snap_table::Full;
use std::alloc::AllocError;
use std::io;

#[derive(Debug, Drop)]
pub enum Fault {
    /// The words name nothing that can be timed.
    Usage,
    /// A table has no row left, or a pass no use.
    Out,
    /// Pairs are missing.
    Lost,
    /// Want of memory.
    Memory,
    /// The clock, the words or the output.
    Io(io::Error),
}

impl From<Full> for Fault {
    fn from(_: Full) -> Self {
        Fault::Out
    }
}

impl From<OutOfMemory> for Fault {
    fn from(_: OutOfMemory) -> Self {
        Fault::Memory
    }
}

impl From<AllocError> for Fault {
    fn from(_: AllocError) -> Self {
        Fault::Memory
    }
}

impl From<io::Error> for Fault {
    fn from(error: io::Error) -> Self {
        Fault::Io(error)
    }
}
