//! Stored heights: a load of the one below a held row, and the store of the right one.
ghost use Rattle.std.specs.Prelude.{◌≡◌, ◌≢◌, ◌≤◌};
ghost use Rattle.snap_rule.specs.Debt.Lists.{or_else};
ghost use Rattle.snap_rule.specs.declared.change.Doing.TheVariants.{Nothing};
ghost use Rattle.snap_stamp.specs.declared.layout.Field.TheVariants.{Key};
ghost use Rattle.snap_steps.specs.Counting.{Among};
ghost use Rattle.snap_steps.specs.Facts.{IsKnown, IsBorn};
ghost use Rattle.snap_steps.specs.Seen.{IsOf, Becomes};
ghost use Rattle.snap_steps.specs.States.{link_field};
ghost use Rattle.snap_steps.specs.Steps.Settling.{AimsByHeight, IsRightHeight, height_read, heightened};
ghost use Rattle.snap_steps.specs.Steps.Unlinking.{IsPair};

use crate::owed::Tally;
use crate::pass::Pass;
use crate::rows::Rows;
use snap_stamp::{Field, Key, RowNo, Side};
use std::marker::Brand;

/// Loads the stored height of a held row's child.
pub fn load_height(rows: &Rows, pass: &mut Pass, row: RowNo, side: Side, child: RowNo) -> u64
    requires table { IsOf pass.old rows.now }
    requires child { (child ≢ 0) × (child ≤ rows.now.rows) }
    requires held { Among row pass.old.view.holds }
    requires live { (Among row pass.old.view.trail.reached) × IsBorn pass.old.view row }
    requires link { IsKnown pass.old.view.words.knows row (link_field side) child }
    requires whole { pass.old.view.doing ≡ Nothing }
    ensures { Becomes pass.old pass.new (height_read pass.old.view row side child result) }
{
    rows.load_told::<Brand, _>(&mut pass.seat, child, Field::Height, (row, side))
}

// The to-do key, or else the row's.
fn to_do_or(to_do: Option<Key>, key: Key) -> Option<Key>
    ensures { result ≡ or_else to_do key }
{
    match to_do {
        Some(old) => Some(old),
        None => Some(key),
    }
}

/// Stores the right height of a held row: one more than the larger of the two below it. The parent may be unsettled
/// then, so it is listed, and where there is no to-do key it comes to be the row's, which is `key`.
pub fn store_height(
    rows: &Rows,
    pass: &mut Pass,
    parent: RowNo,
    side: Side,
    row: RowNo,
    key: Key,
    height: u64,
)
    requires table { IsOf pass.old rows.now }
    requires row { row ≤ rows.now.rows }
    requires pair { IsPair pass.old.view parent side row }
    requires key { IsKnown pass.old.view.words.knows row Key key }
    requires height { IsRightHeight pass.old.view row height }
    requires aims { AimsByHeight pass.old.view parent row }
    requires whole { pass.old.view.doing ≡ Nothing }
    ensures { Becomes pass.old pass.new (heightened pass.old.view parent row key height) }
{
    let told = (parent, key);
    rows.store_told::<Brand, _>(&mut pass.seat, row, Field::Height, height, told);
    let to_do = to_do_or(pass.owed.to_do, key);
    let listed = pass.owed.listed.with_row(parent);
    pass.owed = Tally { to_do, listed };
}
