//! Whether a held row is the place of a key still.
ghost use Rattle.std.specs.Prelude.{◌≤◌, MatchBool, MatchOption};
ghost use Rattle.snap_prelude.specs.{Among, IsOf};
ghost use Rattle.snap_update.specs.Held.{Holds, Checks, IsStill};

use snap_search::Spot;
use snap_stamp::{Field, RowNo, Stamp};
use snap_steps::{Pass, Rows, load_word};

/// A place below a row, and the epoch of the write that found it.
#[derive(Clone, Copy)]
pub struct Gap {
    pub at: Spot,
    pub epoch: u64,
}

/// The stamp, where the held row has no mark of the unlinked, and is row 0 or of this epoch.
pub fn live_stamp(rows: &Rows, pass: &mut Pass, row: RowNo, epoch: u64) -> Option<Stamp>
    requires table { IsOf pass.old rows.now }
    requires row { row ≤ rows.now.rows }
    requires held { Holds pass.old.view row }
    requires epoch { Among epoch pass.old.view.words.present }
    ensures { MatchOption result (Checks pass.old pass.new) (λ s. IsStill pass.old pass.new row s) }
{
    let birth = load_word(rows, pass, row, Field::Birth);
    let stamp = Stamp::of(load_word(rows, pass, row, Field::Stamp));
    if stamp.is_unlinked() {
        return None;
    }
    if row.is_none() {
        return Some(stamp);
    }
    if birth != epoch {
        return None;
    }
    Some(stamp)
}

/// Whether the held row is such a row and has the place's stamp still.
pub fn is_place(rows: &Rows, pass: &mut Pass, gap: &Gap) -> bool
    requires table { IsOf pass.old rows.now }
    requires row { gap.now.at.row ≤ rows.now.rows }
    requires held { Holds pass.old.view gap.now.at.row }
    requires epoch { Among gap.now.epoch pass.old.view.words.present }
    ensures { MatchBool result (IsStill pass.old pass.new gap.now.at.row gap.now.at.stamp)
        (Checks pass.old pass.new) }
{
    let Some(stamp) = live_stamp(rows, pass, gap.at.row, gap.epoch) else {
        return false;
    };
    stamp.word() == gap.at.stamp.word()
}
