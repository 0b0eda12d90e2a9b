//! Where a repair goes next: up the way that the search before it kept, or else by a new search.
ghost use Rattle.std.specs.Prelude.{◌≡◌, ◌≢◌, Some, MatchOption};
ghost use Rattle.snap_repair.specs.{Answers.IsMending, Mending.Looks, Rising.GoesTo, Rising.KeepsWay, Rising.MayEndOn};
ghost use Rattle.snap_search.specs.Prelude.{IsWay};
ghost use Rattle.snap_prelude.specs.{IsOf, Toward};

use snap_search::{Ending, Step, Way, find_to_repair};
use snap_stamp::{Key, Side};
use snap_steps::{Pass, Rows, load_key, load_word};
use std::sync::Wait;

/// What a turn is to do: it repairs a row on the way of the to-do key, in the epoch of the write.
#[derive(Clone, Copy)]
pub struct Task {
    pub key: Key,
    pub epoch: u64,
}

/// The row to be repaired next, and the row above it, which is to be checked under its lock. As long as the to-do key
/// is that of a row near the lowest one that `way` keeps, the root need not be visited again.
pub fn next_row<R: Wait>(rows: &Rows, rt: &R, pass: &mut Pass, key: Key, way: &mut Way) -> Ending
    requires table { IsOf pass.old rows.now }
    requires mending { IsMending pass.old.view }
    requires to_do { pass.old.view.debt.to_do ≡ Some key }
    requires way { IsWay rows.now.rows pass.old.view way.old }
    ensures goes { GoesTo rows.now.rows pass.old pass.new key result }
    ensures way { IsWay rows.now.rows pass.new.view way.new }
{
    if let Some(end) = near_row(rows, pass, key, way) {
        return end;
    }
    find_to_repair(rows, rt, pass, key, way)
}

/// Lets go of the way where the key stays to do for a second turn. A rotation leaves it to do once: the row with the
/// key was lowered, and stands two rows below the lowest that is kept. But where a turn came to nothing, since one of
/// these rows stands elsewhere now, no turn by them would come to an end.
pub fn check_way(way: &mut Way, still: bool)
    ensures { KeepsWay way.old way.new }
{
    if still && way.stayed {
        way.clear();
        return;
    }
    way.stayed = still;
}

// The row with the key, as the end of a way, where it is the lowest that is kept or one of the two below that. It is
// the lowest behind a write at that row and behind a turn that passed the key up; the one below it behind a put of a
// new key; and the one below that behind a rotation, and behind a turn that found a child to be repaired first.
fn near_row(rows: &Rows, pass: &mut Pass, key: Key, way: &mut Way) -> Option<Ending>
    requires table { IsOf pass.old rows.now }
    requires way { IsWay rows.now.rows pass.old.view way.old }
    ensures looks { Looks pass.old pass.new }
    ensures way { IsWay rows.now.rows pass.new.view way.new }
    ensures row { MatchOption result (Unit {0}) (λ e. MayEndOn rows.now.rows pass.new.view key e) }
{
    if !extend_to(rows, pass, key, way) {
        return None;
    }
    way.go_up()
}

// Keeps the child of the lowest row and the child of that, until a row has the key. Answers whether the lowest one then
// has it.
fn extend_to(rows: &Rows, pass: &mut Pass, key: Key, way: &mut Way) -> bool
    requires table { IsOf pass.old rows.now }
    requires way { IsWay rows.now.rows pass.old.view way.old }
    ensures looks { Looks pass.old pass.new }
    ensures way { IsWay rows.now.rows pass.new.view way.new }
{
    let Some(lowest) = way.lowest() else {
        return false;
    };
    let lowest_key = load_key(rows, pass, lowest.row);
    if lowest_key == key {
        return true;
    }
    let child_has_key = keep_child(rows, pass, key, way);
    if child_has_key {
        return true;
    }
    let next_has_key = keep_child(rows, pass, key, way);
    next_has_key
}

// Keeps the child of the lowest row, on the side on which the way went on there: by its link, which nothing validates.
// Answers whether the child has the key.
fn keep_child(rows: &Rows, pass: &mut Pass, key: Key, way: &mut Way) -> bool
    requires table { IsOf pass.old rows.now }
    requires way { IsWay rows.now.rows pass.old.view way.old }
    ensures looks { Looks pass.old pass.new }
    ensures way { IsWay rows.now.rows pass.new.view way.new }
{
    let Some(lowest) = way.lowest() else {
        return false;
    };
    let word = load_word(rows, pass, lowest.row, lowest.side.link());
    let child = rows.row_of(word);
    if child.is_none() {
        return false;
    }
    let child_key = load_key(rows, pass, child);
    let side = side_from(child_key, key);
    way.keep(Step { row: child, side });
    child_key == key
}

// The side on which the way of a key goes on from a row. It ends at the row that has the key: there either side serves.
fn side_from(row_key: Key, key: Key) -> Side
    ensures { row_key ≢ key → Toward result key row_key }
{
    if row_key == key {
        Side::Right
    } else {
        Side::toward(row_key, key)
    }
}
