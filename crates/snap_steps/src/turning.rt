//! The step of a rotation at which the tree takes its new form.
ghost use Rattle.std.specs.Prelude.{◌≡◌, ◌≢◌, ◌≤◌, ◌<◌, ℕ};
ghost use Rattle.snap_rule.specs.Debt.{IsListed};
ghost use Rattle.snap_rule.specs.declared.change.Doing.TheVariants.{Lifted};
ghost use Rattle.snap_stamp.specs.declared.layout.Field.TheVariants.{Key, Stamp};
ghost use Rattle.snap_steps.specs.Facts.{IsKnown};
ghost use Rattle.snap_steps.specs.Seen.{IsOf, Becomes};
ghost use Rattle.snap_steps.specs.Steps.Rotating.{HasStamps, link_turned, turn_stored};

use crate::owed::Tally;
use crate::pass::Pass;
use crate::rows::Rows;
use crate::view::View;
use atomic_table::Play;
use snap_stamp::{Key, RowNo, Side};

struct Turn;

impl Play<(), View> for Turn {
    ghost then = { turn_stored };
}

/// Leads the parent's link to the raised row, by which the tree has its new form. `key` is the row's key, which is the
/// to-do key then.
pub fn link_parent(
    rows: &Rows,
    pass: &mut Pass,
    parent: RowNo,
    parent_side: Side,
    row: RowNo,
    side: Side,
    raised: RowNo,
    key: Key,
)
    requires table { IsOf pass.old rows.now }
    requires parent { parent ≤ rows.now.rows }
    requires change { pass.old.view.doing ≡ Lifted parent parent_side row side raised }
    requires key { IsKnown pass.old.view.words.knows row Key key }
    requires stamps { HasStamps pass.old.view parent row raised }
    ensures pass { Becomes pass.old pass.new
        (link_turned pass.old.view parent parent_side row raised key) }
    ensures listed { (x : ℕ) → parent ≢ 0 → IsKnown pass.old.view.words.knows parent Stamp x
        → IsListed parent x pass.new.view.debt.list }
{
    let _told = side;
    rows.store::<Turn>(
        &mut pass.seat,
        parent,
        parent_side.link(),
        raised.number() as u64,
    );
    let above = pass.owed.listed.with_row(parent);
    let both = above.with_row(raised);
    let listed = both.with_row(row);
    pass.owed = Tally {
        to_do: Some(key),
        listed,
    };
}
