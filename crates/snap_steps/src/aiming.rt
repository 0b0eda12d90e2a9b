//! Where the to-do key of a pass moves: up from a settled row to its parent, or to a row at which nothing that is owed
//! is lost; and where it goes, since the one row that is owed is settled. Each is a load that changes no word.
ghost use Rattle.std.specs.Prelude.{◌≡◌, ◌≤◌, ℕ, Some};
ghost use Rattle.snap_rule.specs.declared.change.Doing.TheVariants.{Nothing};
ghost use Rattle.snap_stamp.specs.declared.layout.Field.TheVariants.{Key};
ghost use Rattle.snap_steps.specs.Counting.{Among};
ghost use Rattle.snap_steps.specs.Facts.{IsBorn, IsKnown};
ghost use Rattle.snap_steps.specs.Owed.{ListsOnly};
ghost use Rattle.snap_steps.specs.Seen.{IsOf, Becomes};
ghost use Rattle.snap_steps.specs.Steps.Settling.{IsHeldRow, IsSeenSettled, MayAimAt, aimed_view, last_settled, passed_up, settled_last};
ghost use Rattle.snap_steps.specs.Steps.Unlinking.{HasKey, IsPair};

use crate::owed::Tally;
use crate::pass::Pass;
use crate::rows::Rows;
use crate::view::View;
use atomic_table::Play;
use snap_stamp::{Field, Key, RowNo, Side};
use std::marker::Brand;

/// Takes a settled row off the list: the to-do key, which is the row's, goes up to its parent. Above row 0 nothing is
/// left to do.
pub fn pass_up(
    rows: &Rows,
    pass: &mut Pass,
    parent: RowNo,
    side: Side,
    row: RowNo,
    key: Key,
    parent_key: Key,
)
    requires table { IsOf pass.old rows.now }
    requires row { row ≤ rows.now.rows }
    requires pair { IsPair pass.old.view parent side row }
    requires key { IsKnown pass.old.view.words.knows row Key key }
    requires aims { pass.old.view.debt.to_do ≡ Some key }
    requires parent_key { HasKey pass.old.view parent parent_key }
    requires settled { IsSeenSettled pass.old.view row }
    requires whole { pass.old.view.doing ≡ Nothing }
    ensures { Becomes pass.old pass.new (passed_up pass.old.view parent parent_key row) }
{
    let _told = (side, key);
    rows.load_told::<Brand, _>(&mut pass.seat, row, Field::Height, (parent, parent_key));
    let listed = pass.owed.listed.without(row);
    let owed = Tally::at(parent, parent_key, listed);
    pass.owed = owed;
}

struct SettleLast;

impl Play<(), View> for SettleLast {
    ghost then = { last_settled };
}

/// Takes the last row off the list, which is held and settled: nothing is left to do.
pub fn settle_last(rows: &Rows, pass: &mut Pass, row: RowNo)
    requires table { IsOf pass.old rows.now }
    requires row { row ≤ rows.now.rows }
    requires held { Among row pass.old.view.holds }
    requires live { (Among row pass.old.view.trail.reached) × IsBorn pass.old.view row }
    requires settled { IsSeenSettled pass.old.view row }
    requires only { ListsOnly row pass.old.view.debt.list }
    requires whole { pass.old.view.doing ≡ Nothing }
    ensures { Becomes pass.old pass.new (settled_last pass.old.view) }
{
    rows.load::<SettleLast>(&mut pass.seat, row, Field::Height);
    pass.owed = Tally::none();
}

/// The to-do key comes to be that of a held row, `key`, where nothing that is owed is lost: it is that already; or the
/// row is the last of this epoch on its way; or it is that of the row's parent, which is held too. At row 0 nothing is
/// left to do.
pub fn aim(rows: &Rows, pass: &mut Pass, row: RowNo, key: Key)
    requires table { IsOf pass.old rows.now }
    requires row { row ≤ rows.now.rows }
    requires held { IsHeldRow pass.old.view row }
    requires key { HasKey pass.old.view row key }
    requires aims { MayAimAt pass.old.view row }
    requires whole { pass.old.view.doing ≡ Nothing }
    ensures { (x : ℕ) × Becomes pass.old pass.new (aimed_view pass.old.view row key x) }
{
    rows.load_told::<Brand, _>(&mut pass.seat, row, Field::Stamp, key);
    let owed = Tally::at(row, key, pass.owed.listed);
    pass.owed = owed;
}
