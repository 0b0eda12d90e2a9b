//! The write as a whole: tries until one makes the entry or finds no row left. The way of its last search is kept for
//! the repair behind it.
ghost use Rattle.std.specs.Prelude.{◌≡◌, MatchResult};
ghost use Rattle.snap_prelude.specs.{Among, call_key, IsOf};
ghost use Rattle.snap_search.specs.Prelude.{EndsAt, IsWay, row_at};
ghost use Rattle.snap_update.specs.{Answers.FitsWord, Answers.RefusedFull, Answers.Writes, Attempts.AttemptsAt};
ghost use Rattle.snap_update.specs.{Attempts.AttemptsWrite, Held.IsAtWork, Held.IsReady};

use crate::attempt::Attempt;
use crate::below::enter_below;
use crate::here::store_here;
use crate::placed::Gap;
use crate::shared::own_below;
use snap_locks::{lock, unlock};
use snap_model::Call;
use snap_search::{Found, Place, Way, find_for_write};
use snap_stamp::Key;
use snap_steps::{Full, Pass, Rows};
use std::sync::Wait;

/// Makes the entry of the call, and answers its reply: what the map had at the key. A removal of an absent key has
/// its entry too. `Full` comes only where every row was handed out, and it is a put of an absent key, or the call noted
/// rows of earlier epochs on the key's way more often than it drew one: the same row at each search, which another pass
/// may have copied since. Then there is no entry. No row is held afterwards. `way` then has rows of the way to the place,
/// by the code the last ones, from that at which the entry was made.
pub fn write<R: Wait>(
    rows: &Rows,
    rt: &R,
    pass: &mut Pass,
    call: &Call,
    way: &mut Way,
) -> Result<Option<u64>, Full>
    requires table { IsOf pass.old rows.now }
    requires ready { IsReady pass.old.view (call_key call.now) }
    requires value { FitsWord call.now }
    ensures answers { MatchResult result (λ reply. Writes pass.old pass.new call.now reply)
        (λ f. (f.rows ≡ rows.now.rows) × RefusedFull rows.now.rows pass.old pass.new call.now) }
    ensures way { IsWay rows.now.rows pass.new.view way.new }
{
    for _ in rt.forever() {
        match try_write(rows, rt, pass, call, way) {
            Attempt::Made(reply) => return Ok(reply),
            Attempt::Again => {}
            Attempt::Refused(full) => return Err(full),
        }
    }
    unreachable!()
}

fn try_write<R: Wait>(rows: &Rows, rt: &R, pass: &mut Pass, call: &Call, way: &mut Way) -> Attempt
    requires table { IsOf pass.old rows.now }
    requires ready { IsReady pass.old.view (call_key call.now) }
    requires value { FitsWord call.now }
    ensures tries { AttemptsWrite rows.now.rows pass.old pass.new call.now result }
    ensures way { IsWay rows.now.rows pass.new.view way.new }
{
    let found = find_for_write(rows, rt, pass, key_of(call), way);
    write_at(rows, rt, pass, call, &found)
}

// Locks the row of the place, writes there where it is the place still, and frees the row.
fn write_at<R: Wait>(rows: &Rows, rt: &R, pass: &mut Pass, call: &Call, found: &Found) -> Attempt
    requires table { IsOf pass.old rows.now }
    requires ready { IsReady pass.old.view (call_key call.now) }
    requires epoch { Among found.now.epoch pass.old.view.words.present }
    requires place { EndsAt rows.now.rows pass.old.view
        (call_key call.now) found.now.epoch found.now.place }
    requires value { FitsWord call.now }
    ensures { AttemptsAt rows.now.rows pass.old pass.new call.now found.now.place result }
{
    let row = found.place.row();
    lock(rows, rt, pass, row);
    let attempt = write_held(rows, rt, pass, call, found);
    unlock(rows, pass, row);
    attempt
}

fn write_held<R: Wait>(rows: &Rows, rt: &R, pass: &mut Pass, call: &Call, found: &Found) -> Attempt
    requires table { IsOf pass.old rows.now }
    requires at_work { IsAtWork pass.old.view (row_at found.now.place) (call_key call.now) }
    requires epoch { Among found.now.epoch pass.old.view.words.present }
    requires place { EndsAt rows.now.rows pass.old.view
        (call_key call.now) found.now.epoch found.now.place }
    requires value { FitsWord call.now }
    ensures { AttemptsAt rows.now.rows pass.old pass.new call.now found.now.place result }
{
    let epoch = found.epoch;
    match found.place {
        Place::Here { row } => store_here(rows, pass, call, row, epoch),
        Place::Below { at } => enter_below(rows, rt, pass, call, &Gap { at, epoch }),
        Place::Shared { at } => own_below(rows, rt, pass, key_of(call), &Gap { at, epoch }),
    }
}

fn key_of(call: &Call) -> Key
    ensures { result ≡ call_key call.now }
{
    match call {
        Call::Put { key, .. } => *key,
        Call::Remove { key } => *key,
    }
}
