//! The steps of a rotation after the first.
ghost use Rattle.std.specs.Prelude.{◌≡◌, ◌+◌, ◌≤◌, ◌<◌, ◌^◌};
ghost use Rattle.snap_rule.specs.declared.change.Doing.TheVariants.{Lowered, Shrunk, Turned};
ghost use Rattle.snap_stamp.specs.Sides.{other};
ghost use Rattle.snap_stamp.specs.declared.layout.Field.TheVariants.{Stamp};
ghost use Rattle.snap_steps.specs.Facts.{IsKnown};
ghost use Rattle.snap_steps.specs.Seen.{IsOf, Becomes};
ghost use Rattle.snap_steps.specs.States.{link_field};
ghost use Rattle.snap_steps.specs.Steps.Rotating.{lowered, lowered_stored, lifted, lifted_stored, cleared, cleared_stored};

use crate::owed::Tally;
use crate::pass::Pass;
use crate::rows::Rows;
use crate::view::View;
use atomic_table::Play;
use snap_stamp::{Field, RowNo, Side};

struct LeadMiddle;

impl Play<(), View> for LeadMiddle {
    ghost then = { lowered_stored };
}

struct LeadAcross;

impl Play<(), View> for LeadAcross {
    ghost then = { lifted_stored };
}

struct ClearMark;

impl Play<(), View> for ClearMark {
    ghost then = { cleared_stored };
}

/// Leads the row's link to the subtree between the two. `middle` is the raised row's link across.
pub fn link_lowered(
    rows: &Rows,
    pass: &mut Pass,
    parent: RowNo,
    parent_side: Side,
    row: RowNo,
    side: Side,
    raised: RowNo,
    middle: RowNo,
)
    requires table { IsOf pass.old rows.now }
    requires row { row ≤ rows.now.rows }
    requires change { pass.old.view.doing ≡ Shrunk parent parent_side row side raised }
    requires middle { IsKnown pass.old.view.words.knows raised (link_field (other side)) middle }
    ensures { Becomes pass.old pass.new
        (lowered pass.old.view parent parent_side row side raised middle) }
{
    let _told = (parent, parent_side, raised);
    rows.store::<LeadMiddle>(&mut pass.seat, row, side.link(), middle.number() as u64);
}

/// Leads the raised row's link across to the row.
pub fn link_raised(
    rows: &Rows,
    pass: &mut Pass,
    parent: RowNo,
    parent_side: Side,
    row: RowNo,
    side: Side,
    raised: RowNo,
)
    requires table { IsOf pass.old rows.now }
    requires raised { raised ≤ rows.now.rows }
    requires change { pass.old.view.doing ≡ Lowered parent parent_side row side raised }
    ensures { Becomes pass.old pass.new (lifted pass.old.view parent parent_side row side raised) }
{
    let _told = (parent, parent_side);
    let across = side.other();
    rows.store::<LeadAcross>(&mut pass.seat, raised, across.link(), row.number() as u64);
}

/// Clears the row's shrinking mark, with the next count. `stamp` is its stamp with the mark.
pub fn clear_shrinking(rows: &Rows, pass: &mut Pass, row: RowNo, stamp: u64)
    requires table { IsOf pass.old rows.now }
    requires row { row ≤ rows.now.rows }
    requires change { pass.old.view.doing ≡ Turned row }
    requires stamp { IsKnown pass.old.view.words.knows row Stamp stamp }
    requires count { stamp + 2 < 2 ^ 64 }
    ensures { Becomes pass.old pass.new (cleared pass.old.view row (stamp + 2)) }
{
    rows.store::<ClearMark>(&mut pass.seat, row, Field::Stamp, stamp + 2);
    let listed = pass.owed.listed.with_row(row);
    pass.owed = Tally {
        to_do: pass.owed.to_do,
        listed,
    };
}
