//! The locks of rows: waiting for one, and freeing it.
#![tactic(auto)]

ghost use Rattle.std.specs.Prelude.{◌≡◌, ◌⊎◌, ◌<◌, ◌≤◌, Bool};
ghost use Rattle.snap_locks.specs.Held.{HasLocked};
ghost use Rattle.snap_prelude.specs.{Becomes, IsOf, Nothing, times, unlocked, Writing};

use crossbeam_utils::Backoff;
use snap_stamp::RowNo;
use snap_steps::{Pass, Rows, free_lock, try_lock};
use std::sync::Wait;

/// Waits until the pass holds row 0, or a row that it has reached. What else it knows is unchanged.
pub fn lock<R: Wait>(rows: &Rows, rt: &R, pass: &mut Pass, row: RowNo)
    requires table { IsOf pass.old rows.now }
    requires row { row ≤ rows.now.rows }
    requires writing { (made : Bool) × (counted : Bool)
        × (pass.old.view.stage ≡ Writing made counted) }
    requires free { times row pass.old.view.holds ≡ 0 }
    requires whole { pass.old.view.doing ≡ Nothing }
    requires reached { (row ≡ 0) ⊎ (0 < times row pass.old.view.trail.reached) }
    ensures { HasLocked pass.old pass.new row }
{
    let backoff = Backoff::new();
    for _ in rt.forever() {
        if try_lock(rows, pass, row) {
            return;
        }
        backoff.snooze();
    }
    unreachable!()
}

/// Frees a row that the pass holds, and forgets what it knew by the lock.
pub fn unlock(rows: &Rows, pass: &mut Pass, row: RowNo)
    requires table { IsOf pass.old rows.now }
    requires row { row ≤ rows.now.rows }
    requires held { 0 < times row pass.old.view.holds }
    requires whole { pass.old.view.doing ≡ Nothing }
    ensures { Becomes pass.old pass.new (unlocked pass.old.view row) }
{
    free_lock(rows, pass, row);
}
