//! A put or a removal, from its way in to its way out.
ghost use Rattle.std.specs.Prelude.{◌≡◌, ◌<◌, ◌^◌, MatchResult};
ghost use Rattle.snap_prelude.specs.{IsOf};
ghost use Rattle.snap_table.specs.Calls.{IsIdle, Refuses, Replies};
ghost use Rattle.snap_update.specs.Answers.{FitsWord};

use snap_epoch::{enter, leave};
use snap_model::Call;
use snap_repair::repair;
use snap_search::Way;
use snap_steps::{Full, Pass, Rows};
use snap_update::write;
use std::sync::Wait;

/// Makes a call on the rows of a table, and answers as `SnapTable::put` and `SnapTable::remove` do.
pub fn make_call<R: Wait>(
    rows: &Rows,
    rt: &R,
    pass: &mut Pass,
    call: &Call,
) -> Result<Option<u64>, Full>
    requires table { IsOf pass.old rows.now }
    requires idle { IsIdle pass.old.view }
    requires uses { pass.old.view.uses < 2 ^ 48 }
    requires value { FitsWord call.now }
    ensures { MatchResult result (λ reply. Replies pass.old pass.new call.now reply)
        (λ f. (f.rows ≡ rows.now.rows) × Refuses rows.now.rows pass.old pass.new call.now) }
{
    enter(rows, rt, pass);
    let mut way = Way::none();
    match write(rows, rt, pass, call, &mut way) {
        Ok(reply) => {
            // The entry is made, whatever the repair answers.
            let _ = repair(rows, rt, pass, &mut way);
            leave(rows, pass, true);
            Ok(reply)
        }
        Err(full) => {
            leave(rows, pass, false);
            Err(full)
        }
    }
}
