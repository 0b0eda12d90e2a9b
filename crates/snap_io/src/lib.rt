//! The outside of the program as traits: files by name, a stream of bytes, and the turns of workers.
//!
//! Each trait says what its calls do to what is held, and counts its faults. `MemShelf` and `MemSink` tell what
//! they hold, and fail where they are told to; `DiskShelf` and `StdSink` stand over the system and tell nothing.
#![tactic(auto)]

mod disk_shelf;
mod failed;
mod hold_turn;
mod mem_shelf;
mod mem_sink;
mod plan;
mod shelf;
mod sink;
mod std_sink;
mod turn;

pub use disk_shelf::DiskShelf;
pub use failed::Failed;
pub use hold_turn::HoldTurn;
pub use mem_shelf::{MemShelf, ShelfOp};
pub use mem_sink::MemSink;
pub use shelf::Shelf;
pub use sink::Sink;
pub use std_sink::StdSink;
pub use turn::{FreeTurn, Turn};
