//! The locks of rows.
ghost use Rattle.std.specs.Prelude.{◌≡◌, ◌≢◌, ◌⊎◌, ◌<◌, ◌≤◌, Bool, MatchBool};
ghost use Rattle.snap_rule.specs.declared.change.Doing.TheVariants.{Nothing};
ghost use Rattle.snap_steps.specs.Counting.{Among, times};
ghost use Rattle.snap_steps.specs.Seen.{IsOf, Becomes};
ghost use Rattle.snap_steps.specs.Steps.Locks.{locked, missed, unlocked, locking_tried, lock_freed};
ghost use Rattle.snap_steps.specs.declared.view.Stage.TheVariants.{Writing};

use crate::fields::index_of;
use crate::pass::Pass;
use crate::rows::Rows;
use crate::view::View;
use atomic_table::Play;
use snap_stamp::{Field, RowNo};

struct TryLock;

impl Play<(), View> for TryLock {
    ghost then = { locking_tried };
}

struct FreeLock;

impl Play<(), View> for FreeLock {
    ghost then = { lock_freed };
}

/// Locks row 0, or a row that the pass has reached. False only where the lock word was not 0; then nothing changed.
pub fn try_lock(rows: &Rows, pass: &mut Pass, row: RowNo) -> bool
    requires table { IsOf pass.old rows.now }
    requires row { row ≤ rows.now.rows }
    requires writing { (made : Bool) × (counted : Bool)
        × (pass.old.view.stage ≡ Writing made counted) }
    requires free { times row pass.old.view.holds ≡ 0 }
    requires reached { (row ≡ 0) ⊎ (Among row pass.old.view.trail.reached) }
    requires whole { pass.old.view.doing ≡ Nothing }
    ensures { MatchBool result (Becomes pass.old pass.new (locked pass.old.view row))
        ((word : _) × (word ≢ 0) × Becomes pass.old pass.new (missed pass.old.view row word)) }
{
    let word = index_of(row, Field::Lock);
    let new = pass.who as u64 + 1;
    let found = rows
        .table
        .shared
        .compare_exchange::<TryLock>(&mut pass.seat, word, 0, new);
    if found == 0 { true } else { false }
}

/// Frees a row that the pass holds.
pub fn free_lock(rows: &Rows, pass: &mut Pass, row: RowNo)
    requires table { IsOf pass.old rows.now }
    requires row { row ≤ rows.now.rows }
    requires held { Among row pass.old.view.holds }
    requires whole { pass.old.view.doing ≡ Nothing }
    ensures { Becomes pass.old pass.new (unlocked pass.old.view row) }
{
    rows.store::<FreeLock>(&mut pass.seat, row, Field::Lock, 0);
}
