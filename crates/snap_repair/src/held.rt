//! What a pass finds out of rows under their locks.
ghost use Rattle.std.specs.Prelude.{◌≡◌, ◌≢◌, ◌≤◌, ◌<◌, [], ◌∷◌, Some, false, MatchOption, MatchBool, IsTrue};
ghost use Rattle.snap_repair.specs.{Answers.FindsWorn, Answers.IsMending, Looking.EndsBelow, Looking.HasLook};
ghost use Rattle.snap_repair.specs.{Looking.LeadsPast, Mending.Looks, Mending.Mends, Rising.MayEndOn};
ghost use Rattle.snap_search.specs.Prelude.{IsReached};
ghost use Rattle.snap_shape.specs.Grips.{HasGrip, Leads};
ghost use Rattle.snap_prelude.specs.{Among, count_of, HasHeight, IsOf, last_count, MayAimAt, Right};

use crate::look::Look;
use crate::rising::Task;
use snap_locks::{lock, unlock};
use snap_search::Ending;
use snap_shape::{Grip, child_of};
use snap_stamp::{Field, RowNo, Side, Stamp};
use snap_steps::{Pass, Rows, aim, load_birth, load_height, load_key, load_word};
use std::sync::Wait;

/// The key and the stamp of a held row, where it has no mark and is row 0 or of this epoch.
pub fn grip_of(rows: &Rows, pass: &mut Pass, row: RowNo, epoch: u64) -> Option<Grip>
    requires table { IsOf pass.old rows.now }
    requires mending { IsMending pass.old.view }
    requires epoch { Among epoch pass.old.view.words.present }
    requires row { row ≤ rows.now.rows }
    requires held { Among row pass.old.view.holds }
    requires reached { IsReached pass.old.view row }
    ensures looks { Looks pass.old pass.new }
    ensures grip { MatchOption result (Looks pass.old pass.new)
        (λ g. (g.row ≡ row) × HasGrip pass.new.view g) }
{
    let birth = load_word(rows, pass, row, Field::Birth);
    let stamp = load_word(rows, pass, row, Field::Stamp);
    let key = load_key(rows, pass, row);
    if stamp % 4 != 0 {
        return None;
    }
    if row.is_none() || birth == epoch {
        Some(Grip { row, key, stamp })
    } else {
        None
    }
}

/// Whether the link of a held row leads to this row.
pub fn leads_to(rows: &Rows, pass: &mut Pass, parent: &Grip, side: Side, row: RowNo) -> bool
    requires table { IsOf pass.old rows.now }
    requires row { parent.now.row ≤ rows.now.rows }
    requires grip { HasGrip pass.old.view parent.now }
    ensures looks { Looks pass.old pass.new }
    ensures leads { IsTrue result → Leads pass.new.view parent.now.row side row }
    ensures another { result ≡ false → LeadsPast pass.new.view parent.now.row side row }
{
    load_word(rows, pass, parent.row, side.link()) == row.number() as u64
}

/// Whether the to-do key may come to be the row's: it is, or the row is still the last of this epoch on its way.
pub fn may_aim(rows: &Rows, pass: &mut Pass, task: &Task, end: &Ending, row: &Grip) -> bool
    requires table { IsOf pass.old rows.now }
    requires mending { IsMending pass.old.view }
    requires to_do { pass.old.view.debt.to_do ≡ Some task.now.key }
    requires epoch { Among task.now.epoch pass.old.view.words.present }
    requires ends { MayEndOn rows.now.rows pass.old.view task.now.key end.now }
    requires row { (row.now.row ≡ end.now.row) × (row.now.row ≢ 0) }
    requires grip { HasGrip pass.old.view row.now }
    ensures looks { Looks pass.old pass.new }
    ensures aims { IsTrue result → MayAimAt pass.new.view row.now.row }
{
    let (side, stamp, here) = (end.side, end.stamp, end.here);
    let (row_key, found) = (row.key, row.stamp);
    let Task { key, epoch } = *task;
    if row_key == key {
        return true;
    }
    if here || found != stamp {
        return false;
    }
    ends_below(rows, pass, row, side, epoch)
}

// Whether the link of a held row is 0 or leads to a row of an earlier epoch.
fn ends_below(rows: &Rows, pass: &mut Pass, row: &Grip, side: Side, epoch: u64) -> bool
    requires table { IsOf pass.old rows.now }
    requires mending { IsMending pass.old.view }
    requires epoch { Among epoch pass.old.view.words.present }
    requires row { row.now.row ≤ rows.now.rows }
    requires grip { HasGrip pass.old.view row.now }
    requires on_right { row.now.row ≡ 0 → side ≡ Right }
    ensures looks { Looks pass.old pass.new }
    ensures ends { IsTrue result → EndsBelow pass.new.view row.now.row side }
{
    let child = child_of(rows, pass, row, side);
    if child.is_none() {
        return true;
    }
    load_birth(rows, pass, child) < epoch
}

/// At row 0 nothing is left to do, where the way of the to-do key still ends there.
pub fn end_at_top<R: Wait>(rows: &Rows, rt: &R, pass: &mut Pass, task: &Task, end: &Ending)
    requires table { IsOf pass.old rows.now }
    requires mending { IsMending pass.old.view }
    requires free { pass.old.view.holds ≡ [] }
    requires to_do { pass.old.view.debt.to_do ≡ Some task.now.key }
    requires epoch { Among task.now.epoch pass.old.view.words.present }
    requires ends { MayEndOn rows.now.rows pass.old.view task.now.key end.now }
    requires row { end.now.row ≡ 0 }
    ensures { Mends pass.old pass.new × (pass.new.view.holds ≡ pass.old.view.holds) }
{
    let top = end.row;
    lock(rows, rt, pass, top);
    at_top(rows, pass, task, end);
    unlock(rows, pass, top);
}

fn at_top(rows: &Rows, pass: &mut Pass, task: &Task, end: &Ending)
    requires table { IsOf pass.old rows.now }
    requires mending { IsMending pass.old.view }
    requires held { pass.old.view.holds ≡ end.now.row ∷ [] }
    requires to_do { pass.old.view.debt.to_do ≡ Some task.now.key }
    requires epoch { Among task.now.epoch pass.old.view.words.present }
    requires ends { MayEndOn rows.now.rows pass.old.view task.now.key end.now }
    requires row { end.now.row ≡ 0 }
    ensures { Mends pass.old pass.new × (pass.new.view.holds ≡ pass.old.view.holds) }
{
    let Ending {
        row,
        stamp,
        side,
        here,
        above: _,
        above_side: _,
    } = *end;
    let Task { key, epoch } = *task;
    let Some(top) = grip_of(rows, pass, row, epoch) else {
        return;
    };
    let found = top.stamp;
    if here || found != stamp {
        return;
    }
    if ends_below(rows, pass, &top, side, epoch) {
        aim(rows, pass, row, key);
    }
}

/// Loads what the table of repairs reads of a held row.
pub fn look_at(rows: &Rows, pass: &mut Pass, row: &Grip) -> Look
    requires table { IsOf pass.old rows.now }
    requires mending { IsMending pass.old.view }
    requires row { (row.now.row ≤ rows.now.rows) × (row.now.row ≢ 0) }
    requires grip { HasGrip pass.old.view row.now }
    ensures looks { Looks pass.old pass.new }
    ensures look { HasLook rows.now.rows pass.new.view row.now.row result }
{
    let number = row.row;
    let value = load_word(rows, pass, number, Field::Value);
    let height = load_word(rows, pass, number, Field::Height);
    let left = child_of(rows, pass, row, Side::Left);
    let right = child_of(rows, pass, row, Side::Right);
    let left_height = height_below(rows, pass, row, Side::Left, left);
    let right_height = height_below(rows, pass, row, Side::Right, right);
    Look {
        value,
        left,
        right,
        height,
        left_height,
        right_height,
    }
}

// The stored height of the child on a side, 0 for none.
fn height_below(rows: &Rows, pass: &mut Pass, row: &Grip, side: Side, child: RowNo) -> u64
    requires table { IsOf pass.old rows.now }
    requires mending { IsMending pass.old.view }
    requires row { (row.now.row ≤ rows.now.rows) × (row.now.row ≢ 0) × (child ≤ rows.now.rows) }
    requires grip { HasGrip pass.old.view row.now }
    requires leads { Leads pass.old.view row.now.row side child }
    ensures looks { Looks pass.old pass.new }
    ensures height { HasHeight pass.new.view row.now.row side result }
    ensures none { child ≡ 0 → result ≡ 0 }
{
    if child.is_none() {
        return 0;
    }
    load_height(rows, pass, row.row, side, child)
}

/// Whether a held row may be lowered no more. Then the pass has found its stamp at the greatest count.
pub fn is_worn_out(rows: &Rows, pass: &mut Pass, row: &Grip) -> bool
    requires table { IsOf pass.old rows.now }
    requires mending { IsMending pass.old.view }
    requires row { row.now.row ≤ rows.now.rows }
    requires grip { HasGrip pass.old.view row.now }
    ensures looks { Looks pass.old pass.new }
    ensures worn { MatchBool result (FindsWorn pass.old pass.new row.now.row)
        (count_of row.now.stamp < last_count) }
{
    let stamp = load_word(rows, pass, row.row, Field::Stamp);
    Stamp::of(stamp).is_last()
}
