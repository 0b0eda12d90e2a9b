//! The search for the place of a key, for a write. It keeps the last rows of its way, for the repair behind the write.
ghost use Rattle.std.specs.Prelude.{◌≡◌, Bool, false};
ghost use Rattle.snap_prelude.specs.{IsOf, Writing};
ghost use Rattle.snap_search.specs.{Kept.IsWay, Kept.with_row, Places.Finds, Places.row_at};

use crate::descent::descend;
use crate::down::Spot;
use crate::kept::{Step, Way};
use snap_stamp::{Key, RowNo, Side};
use snap_steps::{Pass, Rows, load_epoch, set_out};
use std::sync::Wait;

/// Where a key belongs. Below a row, with that row's stamp: while the row still has it, the key belongs there.
#[derive(Clone, Copy)]
pub enum Place {
    /// The row has the key, and is of this epoch.
    Here { row: RowNo },
    /// The row is of this epoch, and its link on the side was 0.
    Below { at: Spot },
    /// The row is of this epoch, and its child on the side is of an earlier one.
    Shared { at: Spot },
}

impl Place {
    /// The row, which is to be locked for a write there.
    pub fn row(&self) -> RowNo
        ensures { result ≡ row_at self.now }
    {
        match *self {
            Place::Here { row } => row,
            Place::Below { at } | Place::Shared { at } => at.row,
        }
    }
}

/// Where a key belongs, and the epoch of the write that looked for it, which stays till the write leaves.
#[derive(Clone, Copy)]
pub struct Found {
    pub place: Place,
    pub epoch: u64,
}

/// Finds the place of a key, for a pass in a write. It loads `epoch` and `done` first, notes births of rows on its way,
/// and waits for nothing but its own tries. In place of what `way` has it keeps there the row at which the place is,
/// and those above it.
pub fn find_for_write<R: Wait>(
    rows: &Rows,
    rt: &R,
    pass: &mut Pass,
    key: Key,
    way: &mut Way,
) -> Found
    requires table { IsOf pass.old rows.now }
    requires writing { (made : Bool) × (counted : Bool)
        × (pass.old.view.stage ≡ Writing made counted) }
    ensures finds { Finds rows.now.rows pass.old pass.new key result }
    ensures way { IsWay rows.now.rows pass.new.view way.new }
    ensures stayed { way.new.stayed ≡ false }
{
    let epoch = load_epoch(rows, pass);
    set_out(rows, pass, key);
    let descent = descend(rows, rt, pass, key, epoch, way);
    way.meet(&descent.spot);
    keep_row(way, &descent.place);
    Found {
        place: descent.place,
        epoch,
    }
}

// Keeps the row with the key. At any other place the row is that at which the search stood, which is kept already.
fn keep_row(way: &mut Way, place: &Place)
    ensures steps { way.new.steps.items ≡ with_row place.now way.old.steps.items }
    ensures stayed { way.new.stayed ≡ way.old.stayed }
{
    if let Place::Here { row } = *place {
        way.keep(Step {
            row,
            side: Side::Right,
        });
    }
}
