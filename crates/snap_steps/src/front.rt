//! The end of a table: what stays known of it.
ghost use Rattle.std.specs.Prelude.{◌≡◌};
ghost use Rattle.snap_steps.specs.Ending.{Closes, SpeaksForAll};
ghost use Rattle.snap_steps.specs.Seen.{IsOf};
ghost use Rattle.snap_steps.specs.declared.view.Stage.TheVariants.{Idle};

use crate::pass::Pass;
use crate::rows::Rows;
use std::marker::Model;
use std::snapshot::Snapshot;

/// What is known of a table that was closed. Contracts see beside the three numbers the pass that closed it, as
/// it was then, and by it the whole history with the entries and the cuts of every pass.
#[derive(Drop)]
pub struct Front {
    /// How many entries the history has.
    pub writes: u64,
    /// How many pairs its map has.
    pub pairs: u64,
    /// How many rows were handed out.
    pub drawn: u32,
    last: Snapshot<Pass>,
}

impl Model for Front {
    ghost use Rattle.snap_steps.specs.Ending.{Ended};

    ghost Value = { Ended };

    ghost view = { λ f.
        record { writes = f.writes; pairs = f.pairs; drawn = f.drawn; last = f.last.value } };
}

/// Closes a table by a pass to which every other number was admitted.
pub fn close_rows(rows: Rows, pass: Pass) -> Front
    requires table { IsOf pass rows }
    requires idle { pass.view.stage ≡ Idle }
    requires all { SpeaksForAll pass.view }
    ensures { Closes pass result }
{
    let last = Snapshot::of(&pass);
    let Rows { table, rows: _ } = rows;
    let Pass {
        seat,
        who: _,
        uses: _,
        added,
        taken,
        owed: _,
    } = pass;
    let closed = table.close_with(seat);
    let drawn = closed.word(0) as u32;
    let writes = closed.word(3);
    closed.free();
    Front {
        writes,
        pairs: added.wrapping_sub(taken),
        drawn,
        last,
    }
}
