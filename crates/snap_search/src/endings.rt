//! The search for the row at which a repair begins. It keeps the last rows of its way, for the turns after the first.
ghost use Rattle.std.specs.Prelude.{◌≡◌, Bool, false};
ghost use Rattle.snap_search.specs.{Endings.end_at, Endings.FindsEnd, Kept.IsWay, Kept.with_above};
ghost use Rattle.snap_prelude.specs.{IsOf, Writing};

use crate::descent::{Descent, descend};
use crate::kept::Way;
use crate::places::Place;
use snap_stamp::{Key, RowNo, Side};
use snap_steps::{Pass, Rows, load_epoch, set_out_again};
use std::sync::Wait;

/// The last row of this epoch on the way of a key, and the row above it. The stamp is that of the row from which the
/// way last went on, and the side the one on which it did: this is the row, or where the row has the key the row above.
/// At row 0 there is no row above. Of a row that was kept on a way before, `here` says that it may have the key.
#[derive(Clone, Copy)]
pub struct Ending {
    pub above: RowNo,
    pub above_side: Side,
    pub row: RowNo,
    pub stamp: u64,
    pub side: Side,
    /// The row has the key.
    pub here: bool,
}

/// Finds where the way of a key ends in the rows of this epoch, and the row above it, for a pass in a write. The pass
/// has seen no more of the history then: what it has seen may end with the entry of its write. It loads `epoch` first,
/// notes births of rows on its way, and waits for nothing but its own tries. In place of what `way` has it keeps there
/// the row above, and those above that one.
pub fn find_to_repair<R: Wait>(
    rows: &Rows,
    rt: &R,
    pass: &mut Pass,
    key: Key,
    way: &mut Way,
) -> Ending
    requires table { IsOf pass.old rows.now }
    requires writing { (made : Bool) × (counted : Bool)
        × (pass.old.view.stage ≡ Writing made counted) }
    ensures finds { FindsEnd rows.now.rows pass.old pass.new key result }
    ensures way { IsWay rows.now.rows pass.new.view way.new }
    ensures stayed { way.new.stayed ≡ false }
{
    let epoch = load_epoch(rows, pass);
    set_out_again(rows, pass, key);
    let descent = descend(rows, rt, pass, key, epoch, way);
    keep_above(way, &descent);
    end_from(&descent)
}

// Keeps the row above the one with the key. Any other end of a way is the row from which it would go on, and the row
// above that one is kept already.
fn keep_above(way: &mut Way, descent: &Descent)
    ensures steps { way.new.steps.items
        ≡ with_above descent.now.place way.old.steps.items descent.now.spot }
    ensures stayed { way.new.stayed ≡ way.old.stayed }
{
    if let Place::Here { row: _ } = descent.place {
        way.meet(&descent.spot);
    }
}

// The place with the row above its row: where the row has the key, that at which the last step down began.
fn end_from(descent: &Descent) -> Ending
    ensures { result ≡ end_at descent.now.place descent.now.above descent.now.spot }
{
    let Descent { place, spot, above } = *descent;
    match place {
        Place::Here { row } => Ending {
            above: spot.row,
            above_side: spot.side,
            row,
            stamp: spot.stamp.word(),
            side: spot.side,
            here: true,
        },
        Place::Below { at } | Place::Shared { at } => Ending {
            above: above.row,
            above_side: above.side,
            row: at.row,
            stamp: at.stamp.word(),
            side: at.side,
            here: false,
        },
    }
}
