//! A write that comes to a row of an earlier epoch: it puts a copy in the row's place, and looks for its place again.
ghost use Rattle.snap_search.specs.Prelude.{EndsShared};
ghost use Rattle.snap_prelude.specs.{Among, IsOf};
ghost use Rattle.snap_update.specs.{Attempts.Brings, Held.IsAtWork};

use crate::attempt::Attempt;
use crate::placed::{Gap, is_place};
use snap_copy::{Wanted, own_child};
use snap_stamp::Key;
use snap_steps::{Pass, Rows, load_word};
use std::sync::Wait;

/// Makes the child of the held row on the side one of this epoch, where the row is the place still.
pub fn own_below<R: Wait>(rows: &Rows, rt: &R, pass: &mut Pass, key: Key, gap: &Gap) -> Attempt
    requires table { IsOf pass.old rows.now }
    requires at_work { IsAtWork pass.old.view gap.now.at.row key }
    requires epoch { Among gap.now.epoch pass.old.view.words.present }
    requires place { EndsShared rows.now.rows pass.old.view key gap.now.epoch gap.now.at }
    ensures { Brings rows.now.rows pass.old pass.new key result }
{
    if !is_place(rows, pass, gap) {
        return Attempt::Again;
    }
    let (row, side) = (gap.at.row, gap.at.side);
    if load_word(rows, pass, row, side.link()) == 0 {
        return Attempt::Again;
    }
    let at = Wanted {
        parent: row,
        side,
        epoch: gap.epoch,
    };
    match own_child(rows, rt, pass, key, &at) {
        Ok(_) => Attempt::Again,
        Err(full) => Attempt::Refused(full),
    }
}
