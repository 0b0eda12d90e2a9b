//! Lazy copies of rows of earlier epochs.
ghost use Rattle.std.specs.Prelude.{◌≡◌, ◌≢◌, ◌≤◌};
ghost use Rattle.snap_rule.specs.declared.change.Doing.TheVariants.{Nothing};
ghost use Rattle.snap_stamp.specs.declared.layout.Field.TheVariants.{Lock};
ghost use Rattle.snap_steps.specs.Seen.{IsOf, Becomes};
ghost use Rattle.snap_steps.specs.States.{link_field};
ghost use Rattle.snap_steps.specs.Steps.Births.{learnt, lasting_loaded};
ghost use Rattle.snap_steps.specs.Steps.Copies.{IsOlder, IsCopy, copied};
ghost use Rattle.snap_steps.specs.Steps.Tilts.{IsCopyPlace, IsWriting};

use crate::pass::Pass;
use crate::rows::Rows;
use crate::view::View;
use atomic_table::Play;
use snap_stamp::{Field, Key, RowNo, Side};
use std::marker::Brand;

struct LoadShared;

impl Play<(), View> for LoadShared {
    ghost then = { lasting_loaded };
}

/// Loads a word of a row of an earlier epoch. But for its lock such a row's words change no more.
pub fn load_shared(rows: &Rows, pass: &mut Pass, row: RowNo, field: Field) -> u64
    requires table { IsOf pass.old rows.now }
    requires row { row ≤ rows.now.rows }
    requires older { IsOlder pass.old.view row }
    requires field { field ≢ Lock }
    ensures { Becomes pass.old pass.new (learnt pass.old.view row field result) }
{
    rows.load::<LoadShared>(&mut pass.seat, row, field)
}

/// Links a row of the pass, which is a copy of the child in this epoch, in the child's place. The parent is held.
/// Either it is the place that the search of this write found for the key, and the write has no entry yet; or there is
/// no key, and the pass holds a row of which one side is higher by two at least: the parent is that row and the side
/// the higher one, or its child there and the side the other one. The map stays as it is.
pub fn link_copy(
    rows: &Rows,
    pass: &mut Pass,
    key: Option<Key>,
    parent: RowNo,
    side: Side,
    child: RowNo,
    copy: RowNo,
)
    requires table { IsOf pass.old rows.now }
    requires parent { parent ≤ rows.now.rows }
    requires writing { IsWriting pass.old.view }
    requires place { IsCopyPlace pass.old.view key parent side child }
    requires older { IsOlder pass.old.view child }
    requires filled { IsCopy pass.old.view copy child }
    requires whole { pass.old.view.doing ≡ Nothing }
    ensures { Becomes pass.old pass.new (copied pass.old.view key parent (link_field side) copy) }
{
    let _child = child;
    rows.store_told::<Brand, _>(
        &mut pass.seat,
        parent,
        side.link(),
        copy.number() as u64,
        key,
    );
}
