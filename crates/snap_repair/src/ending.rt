//! The end of a repair below row 0: at a settled row beside which the pass owes nothing.
ghost use Rattle.std.specs.Prelude.{◌≢◌, ◌≤◌, IsTrue};
ghost use Rattle.snap_repair.specs.{Answers.EndsRepair, Answers.IsMending, Looking.LooksSettled};
ghost use Rattle.snap_shape.specs.Grips.{HasGrip};
ghost use Rattle.snap_prelude.specs.{IsOf, IsSeenSettled, ListsOnly};

use crate::look::{Look, is_settled};
use snap_shape::Grip;
use snap_steps::{Pass, Rows, settle_last};

/// Whether the repair ends at this row: it is settled, and surely no other is owed.
pub fn may_end(pass: &Pass, row: &Grip, look: &Look) -> bool
    ensures settled { IsTrue result → LooksSettled look.now }
    ensures only { IsTrue result → ListsOnly row.now.row pass.now.view.debt.list }
{
    if !is_settled(look) {
        return false;
    }
    pass.owes_only(row.row)
}

/// Ends it there, without a way up to row 0.
pub fn end_repair(rows: &Rows, pass: &mut Pass, row: &Grip)
    requires table { IsOf pass.old rows.now }
    requires mending { IsMending pass.old.view }
    requires row { (row.now.row ≤ rows.now.rows) × (row.now.row ≢ 0) }
    requires grip { HasGrip pass.old.view row.now }
    requires settled { IsSeenSettled pass.old.view row.now.row }
    requires only { ListsOnly row.now.row pass.old.view.debt.list }
    ensures { EndsRepair pass.old pass.new }
{
    settle_last(rows, pass, row.row);
}
