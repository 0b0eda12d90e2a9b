//! Loads of births. The birth of a row that was linked never changes.
ghost use Rattle.std.specs.Prelude.{◌≡◌, ◌<◌, ◌≤◌, [], ◌∷◌};
ghost use Rattle.snap_rule.specs.declared.reader.Point.{Point};
ghost use Rattle.snap_rule.specs.declared.reader.Reading.TheVariants.{On};
ghost use Rattle.snap_steps.specs.Counting.{Among};
ghost use Rattle.snap_steps.specs.Seen.{IsOf, Becomes};
ghost use Rattle.snap_steps.specs.Steps.Births.{born, birth_noted, IsPast, birth_loaded, way_birth_loaded};

use crate::pass::Pass;
use crate::rows::Rows;
use crate::view::View;
use atomic_table::Play;
use snap_stamp::{Field, Key, RowNo};

struct LoadBirth;

impl Play<(), View> for LoadBirth {
    ghost then = { birth_loaded };
}

struct NoteBirth;

impl Play<(), View> for NoteBirth {
    ghost then = { way_birth_loaded };
}

/// Loads the birth of a row that the pass has reached, and knows it from then on.
pub fn load_birth(rows: &Rows, pass: &mut Pass, row: RowNo) -> u64
    requires table { IsOf pass.old rows.now }
    requires row { row ≤ rows.now.rows }
    requires reached { Among row pass.old.view.trail.reached }
    ensures pass { Becomes pass.old pass.new (born pass.old.view row result) }
    ensures past { IsPast pass.old.view result }
{
    rows.load::<LoadBirth>(&mut pass.seat, row, Field::Birth)
}

/// Loads the birth of the row to which all checks have led the pass on the way of the key. The first such load of a
/// row on a way leaves a note.
pub fn note_birth(rows: &Rows, pass: &mut Pass, key: Key, row: RowNo) -> u64
    requires table { IsOf pass.old rows.now }
    requires row { row ≤ rows.now.rows }
    requires reached { Among row pass.old.view.trail.reached }
    requires way { (point : Point) × (pass.old.view.way.reads ≡ On key point) }
    requires confirmed { pass.old.view.way.confirmed ≡ row ∷ [] }
    ensures pass { Becomes pass.old pass.new (birth_noted pass.old.view key row result) }
    ensures past { IsPast pass.old.view result }
{
    let _key = key;
    rows.load::<NoteBirth>(&mut pass.seat, row, Field::Birth)
}
