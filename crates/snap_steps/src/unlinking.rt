//! The two steps by which a row without a value leaves its tree.
ghost use Rattle.std.specs.Prelude.{◌≡◌, ◌+◌, ◌%◌, ◌≤◌, ◌<◌, ◌^◌};
ghost use Rattle.snap_rule.specs.declared.change.Doing.TheVariants.{Nothing, Unlinked};
ghost use Rattle.snap_stamp.specs.declared.layout.Field.TheVariants.{Stamp};
ghost use Rattle.snap_steps.specs.Facts.{IsKnown};
ghost use Rattle.snap_steps.specs.Seen.{IsOf, Becomes};
ghost use Rattle.snap_steps.specs.Steps.Unlinking.{AimsNear, HasKey, IsPair, IsRouting, unlinked, row_spliced, splice_stored};

use crate::owed::Tally;
use crate::pass::Pass;
use crate::rows::Rows;
use crate::view::View;
use atomic_table::Play;
use snap_stamp::{Field, Key, RowNo, Side};
use std::marker::Brand;

struct LeadPast;

impl Play<(), View> for LeadPast {
    ghost then = { splice_stored };
}

/// Sets the unlinked mark of a held row without a value and with one child at most, by which it leaves the tree.
/// `stamp` is its stamp, `only` its one child or 0, and `parent_key` the parent's key, which is the to-do key then.
/// Where the parent is row 0 nothing is left to do.
pub fn mark_unlinked(
    rows: &Rows,
    pass: &mut Pass,
    parent: RowNo,
    side: Side,
    row: RowNo,
    only: RowNo,
    stamp: u64,
    parent_key: Key,
)
    requires table { IsOf pass.old rows.now }
    requires row { row ≤ rows.now.rows }
    requires pair { IsPair pass.old.view parent side row }
    requires routing { IsRouting pass.old.view row only }
    requires stamp { IsKnown pass.old.view.words.knows row Stamp stamp }
    requires count { (stamp % 4 ≡ 0) × (stamp + 1 < 2 ^ 64) }
    requires key { HasKey pass.old.view parent parent_key }
    requires aims { AimsNear pass.old.view parent row }
    requires whole { pass.old.view.doing ≡ Nothing }
    ensures { Becomes pass.old pass.new
        (unlinked pass.old.view parent side row only parent_key (stamp + 1)) }
{
    let told = (parent, side, only, parent_key);
    rows.store_told::<Brand, _>(&mut pass.seat, row, Field::Stamp, stamp + 1, told);
    let listed = pass.owed.listed.with_row(parent);
    let fewer = listed.without(row);
    let owed = Tally::at(parent, parent_key, fewer);
    pass.owed = owed;
}

/// Leads the parent's link past the row that was marked.
pub fn splice(rows: &Rows, pass: &mut Pass, parent: RowNo, side: Side, row: RowNo, only: RowNo)
    requires table { IsOf pass.old rows.now }
    requires parent { parent ≤ rows.now.rows }
    requires change { pass.old.view.doing ≡ Unlinked parent side row only }
    ensures { Becomes pass.old pass.new (row_spliced pass.old.view parent side only) }
{
    let _row = row;
    rows.store::<LeadPast>(&mut pass.seat, parent, side.link(), only.number() as u64);
}
