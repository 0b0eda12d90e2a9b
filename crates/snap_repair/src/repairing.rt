//! The loop of repairs, and the locks of a row and its parent.
//!
//! The parent is locked first, and the row only once the parent is known to lead to it: so who waits for a lock holds
//! locks above it alone.
ghost use Rattle.std.specs.Prelude.{◌≡◌, ◌≢◌, [], ◌∷◌, Some, None};
ghost use Rattle.snap_repair.specs.{Answers.IsMending, Answers.Repairs, Answers.TriesRepair, Rising.MayEndOn};
ghost use Rattle.snap_search.specs.Prelude.{IsWay};
ghost use Rattle.snap_shape.specs.Grips.{HasGrip, Leads};
ghost use Rattle.snap_prelude.specs.{Among, IsOf};

use crate::answer::Repaired;
use crate::held::{end_at_top, grip_of, leads_to, may_aim};
use crate::rising::{Task, check_way, next_row};
use crate::settling::settle;
use snap_locks::{lock, unlock};
use snap_search::{Ending, Way};
use snap_shape::{Edge, Grip};
use snap_steps::{Pass, Rows, aim, load_epoch};
use std::sync::Wait;

/// Repairs what the pass owes. `Done`: it owes nothing. Else it says why rows are left unsettled, for good: `RowsOut`
/// exactly where a copy of this call found that every row was handed out, and `StampOut` where this call found the
/// stamp of a row that it held, and was to lower, at the greatest count. No entry is made, each row that was drawn is
/// linked, and no row is held afterwards. It begins at the lowest row that `way` keeps, or one of the two below it,
/// where that has the to-do key, as it has behind the write that kept them.
pub fn repair<R: Wait>(rows: &Rows, rt: &R, pass: &mut Pass, way: &mut Way) -> Repaired
    requires table { IsOf pass.old rows.now }
    requires mending { IsMending pass.old.view }
    requires free { pass.old.view.holds ≡ [] }
    requires way { IsWay rows.now.rows pass.old.view way.old }
    ensures { Repairs rows.now.rows pass.old pass.new result }
{
    // Where nothing is owed, nothing is loaded. Else this is the epoch until the write ends, so it is loaded once.
    if pass.to_do().is_none() {
        return Repaired::Done;
    }
    let epoch = load_epoch(rows, pass);
    for _ in rt.forever() {
        let Some(key) = pass.to_do() else {
            return Repaired::Done;
        };
        let task = Task { key, epoch };
        if let Some(why) = try_repair(rows, rt, pass, &task, way) {
            return why;
        }
    }
    unreachable!()
}

// One turn: the row with the to-do key, or the last one of this epoch on its way, is repaired where it still is as it
// was found.
fn try_repair<R: Wait>(
    rows: &Rows,
    rt: &R,
    pass: &mut Pass,
    task: &Task,
    way: &mut Way,
) -> Option<Repaired>
    requires table { IsOf pass.old rows.now }
    requires mending { IsMending pass.old.view }
    requires free { pass.old.view.holds ≡ [] }
    requires to_do { pass.old.view.debt.to_do ≡ Some task.now.key }
    requires epoch { Among task.now.epoch pass.old.view.words.present }
    requires way { IsWay rows.now.rows pass.old.view way.old }
    ensures tries { TriesRepair rows.now.rows pass.old pass.new result }
    ensures way { IsWay rows.now.rows pass.new.view way.new }
{
    let key = task.key;
    let end = next_row(rows, rt, pass, key, way);
    let row = end.row;
    if row.is_none() {
        end_at_top(rows, rt, pass, task, &end);
        return None;
    }
    let why = take_rows(rows, rt, pass, task, &end);
    let still = pass.to_do() == Some(key);
    check_way(way, still);
    why
}

// Locks the row above, and the row where that leads to it.
fn take_rows<R: Wait>(
    rows: &Rows,
    rt: &R,
    pass: &mut Pass,
    task: &Task,
    end: &Ending,
) -> Option<Repaired>
    requires table { IsOf pass.old rows.now }
    requires mending { IsMending pass.old.view }
    requires free { pass.old.view.holds ≡ [] }
    requires to_do { pass.old.view.debt.to_do ≡ Some task.now.key }
    requires epoch { Among task.now.epoch pass.old.view.words.present }
    requires ends { MayEndOn rows.now.rows pass.old.view task.now.key end.now }
    requires row { end.now.row ≢ 0 }
    ensures { TriesRepair rows.now.rows pass.old pass.new result }
{
    let above = end.above;
    lock(rows, rt, pass, above);
    let why = at_parent(rows, rt, pass, task, end);
    unlock(rows, pass, above);
    why
}

fn at_parent<R: Wait>(
    rows: &Rows,
    rt: &R,
    pass: &mut Pass,
    task: &Task,
    end: &Ending,
) -> Option<Repaired>
    requires table { IsOf pass.old rows.now }
    requires mending { IsMending pass.old.view }
    requires held { pass.old.view.holds ≡ end.now.above ∷ [] }
    requires to_do { pass.old.view.debt.to_do ≡ Some task.now.key }
    requires epoch { Among task.now.epoch pass.old.view.words.present }
    requires ends { MayEndOn rows.now.rows pass.old.view task.now.key end.now }
    requires row { end.now.row ≢ 0 }
    ensures { TriesRepair rows.now.rows pass.old pass.new result }
{
    let (above, side, row) = (end.above, end.above_side, end.row);
    if row == above {
        return None;
    }
    let Some(parent) = grip_of(rows, pass, above, task.epoch) else {
        return None;
    };
    if !leads_to(rows, pass, &parent, side, row) {
        return None;
    }
    lock(rows, rt, pass, row);
    let why = at_row(rows, rt, pass, task, end, &parent);
    unlock(rows, pass, row);
    why
}

fn at_row<R: Wait>(
    rows: &Rows,
    rt: &R,
    pass: &mut Pass,
    task: &Task,
    end: &Ending,
    parent: &Grip,
) -> Option<Repaired>
    requires table { IsOf pass.old rows.now }
    requires mending { IsMending pass.old.view }
    requires held { pass.old.view.holds ≡ end.now.row ∷ end.now.above ∷ [] }
    requires to_do { pass.old.view.debt.to_do ≡ Some task.now.key }
    requires epoch { Among task.now.epoch pass.old.view.words.present }
    requires ends { MayEndOn rows.now.rows pass.old.view task.now.key end.now }
    requires row { (end.now.row ≢ 0) × (end.now.row ≢ end.now.above) }
    requires parent { (parent.now.row ≡ end.now.above) × HasGrip pass.old.view parent.now
        × Leads pass.old.view end.now.above end.now.above_side end.now.row }
    ensures { TriesRepair rows.now.rows pass.old pass.new result }
{
    let (number, side, epoch) = (end.row, end.above_side, task.epoch);
    let Some(row) = grip_of(rows, pass, number, epoch) else {
        return None;
    };
    let row_key = row.key;
    if !may_aim(rows, pass, task, end, &row) {
        return None;
    }
    aim(rows, pass, number, row_key);
    let edge = Edge {
        parent: *parent,
        side,
        child: row,
    };
    settle(rows, rt, pass, &edge, epoch)
}
