//! The removal of a key whose way ends below a row.
ghost use Rattle.std.specs.Prelude.{◌≡◌, ◌≤◌, false, None};
ghost use Rattle.snap_model.specs.declared.call.Call.TheVariants.{Remove};
ghost use Rattle.snap_rule.specs.declared.change.Doing.TheVariants.{Nothing};
ghost use Rattle.snap_steps.specs.Histories.{Enters};
ghost use Rattle.snap_steps.specs.Rule.Epochs.{AllAre};
ghost use Rattle.snap_steps.specs.Seen.{IsOf, Becomes};
ghost use Rattle.snap_steps.specs.States.{link_field};
ghost use Rattle.snap_steps.specs.Steps.Writes.{entry_of, made_entry, IsLeafPlace};
ghost use Rattle.snap_steps.specs.declared.view.Stage.TheVariants.{Writing};

use crate::pass::Pass;
use crate::rows::Rows;
use snap_stamp::{Key, RowNo, Side};
use std::marker::Brand;

/// Loads again the link of 0 below the held row at which the way of the key ends. This makes the entry of the
/// write: a removal that found none.
pub fn confirm_absent_below(rows: &Rows, pass: &mut Pass, row: RowNo, side: Side, key: Key)
    requires table { IsOf pass.old rows.now }
    requires row { row ≤ rows.now.rows }
    requires writing { pass.old.view.stage ≡ Writing false false }
    requires place { IsLeafPlace pass.old.view key row (link_field side) }
    requires copies { AllAre key pass.old.view.fresh.copies }
    requires whole { pass.old.view.doing ≡ Nothing }
    ensures { (log : _) × Enters pass.old.view log (entry_of pass.old.view.who (Remove key) None)
        × Becomes pass.old pass.new
        (made_entry pass.old.view log (entry_of pass.old.view.who (Remove key) None)) }
{
    rows.load_told::<Brand, _>(&mut pass.seat, row, side.link(), key);
}
