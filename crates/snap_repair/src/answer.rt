//! What repairs answer.
use snap_stamp::RowNo;
use snap_steps::Pass;
use std::snapshot::Snapshot;

/// How a repair ended. Contracts see beside a reason the pass as it was when the call found it.
#[derive(Drop)]
pub enum Repaired {
    /// Nothing is owed.
    Done,
    /// A row wants a copy, and every row was handed out.
    RowsOut { rows: u32, at: Snapshot<Pass> },
    /// The row is to be lowered, and its stamp is at its greatest count.
    StampOut { row: RowNo, at: Snapshot<Pass> },
}
