//! The step by which a rotation begins.
ghost use Rattle.std.specs.Prelude.{◌≡◌, ◌+◌, ◌%◌, ◌≤◌, ◌<◌};
ghost use Rattle.snap_rule.specs.declared.change.Doing.TheVariants.{Nothing};
ghost use Rattle.snap_stamp.specs.Stamps.{count_of, last_count};
ghost use Rattle.snap_stamp.specs.declared.layout.Field.TheVariants.{Stamp};
ghost use Rattle.snap_steps.specs.Facts.{IsKnown};
ghost use Rattle.snap_steps.specs.Seen.{IsOf, Becomes};
ghost use Rattle.snap_steps.specs.Steps.Changes.{IsTurn, TurnsFor, shrunk};

use crate::owed::Tally;
use crate::pass::Pass;
use crate::rows::Rows;
use snap_stamp::{Field, Key, RowNo, Side};
use std::marker::Brand;

// The stamp with the shrinking mark.
fn begun(stamp: u64) -> u64
    requires { (stamp % 4 ≡ 0) × (count_of stamp < last_count) }
    ensures { result ≡ stamp + 2 }
{
    snap_stamp::Stamp::of(stamp).begin().word()
}

/// Sets the shrinking mark of a held row, which begins a rotation: the row's child on the side is to be raised,
/// and the row to be lowered. `stamp` is the row's stamp, which is below its greatest count, and `key` the to-do key
/// afterwards: the row's key, or the raised row's, where it is that already.
pub fn mark_shrinking(
    rows: &Rows,
    pass: &mut Pass,
    parent: RowNo,
    parent_side: Side,
    row: RowNo,
    side: Side,
    raised: RowNo,
    stamp: u64,
    key: Key,
)
    requires table { IsOf pass.old rows.now }
    requires row { row ≤ rows.now.rows }
    requires place { IsTurn pass.old.view parent parent_side row side raised }
    requires aims { TurnsFor pass.old.view parent row raised key }
    requires stamp { IsKnown pass.old.view.words.knows row Stamp stamp }
    requires count { (stamp % 4 ≡ 0) × (count_of stamp < last_count) }
    requires whole { pass.old.view.doing ≡ Nothing }
    ensures { Becomes pass.old pass.new
        (shrunk pass.old.view parent parent_side row side raised (stamp + 2) key) }
{
    let marked = begun(stamp);
    let told = (parent, parent_side, side, raised, key);
    rows.store_told::<Brand, _>(&mut pass.seat, row, Field::Stamp, marked, told);
    let listed = pass.owed.listed.with_row(row);
    pass.owed = Tally {
        to_do: Some(key),
        listed,
    };
}
