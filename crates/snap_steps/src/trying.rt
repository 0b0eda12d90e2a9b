//! The loads of a read that never waits and never begins again.
ghost use Rattle.std.specs.Prelude.{◌≡◌, ◌<◌, ◌≤◌, ◌/◌, ℕ};
ghost use Rattle.snap_rule.specs.declared.quiescence.Trying.TheVariants.{Troubled};
ghost use Rattle.snap_rule.specs.declared.reader.Point.{Point};
ghost use Rattle.snap_steps.specs.Histories.{Extends};
ghost use Rattle.snap_steps.specs.Seen.{IsOf, Becomes};
ghost use Rattle.snap_steps.specs.Steps.Trying.{try_begun, tried_on, tried_last, busy_seen, IsTrying, try_begins, next_tried, answer_tried, busy_told};
ghost use Rattle.snap_steps.specs.Steps.Way.{IsNext, IsLast, HasBound, HasAnswer};

use crate::pass::Pass;
use crate::rows::Rows;
use crate::view::View;
use atomic_table::Play;
use snap_stamp::{Field, RowNo};

/// A write was in progress.
#[derive(Clone, Copy, Debug, PartialEq, Eq)]
pub struct Busy {
    /// How many writes had ended when the read began.
    pub left: u64,
    /// How many writes were entered when it gave up.
    pub entered: u64,
}

struct BeginTry;

impl Play<(), View> for BeginTry {
    ghost then = { try_begins };
}

struct TryNext;

impl Play<(), View> for TryNext {
    ghost then = { next_tried };
}

struct TryLast;

impl Play<(), View> for TryLast {
    ghost then = { answer_tried };
}

struct LoadBusy;

impl Play<(), View> for LoadBusy {
    ghost then = { busy_told };
}

/// Loads `left`, how many writes have ended. A read that never waits begins so, once it stands at row 0.
pub fn begin_try(rows: &Rows, pass: &mut Pass) -> u64
    requires { IsOf pass.old rows.now }
    ensures { (child : ℕ) × Becomes pass.old pass.new (try_begun pass.old.view result child) }
{
    rows.table.shared.load::<BeginTry>(&mut pass.seat, 2)
}

/// Loads the reader's next word. A word that it can't find while no write is entered is trouble, and ends its way.
pub fn try_next_word(rows: &Rows, pass: &mut Pass, row: RowNo, field: Field) -> u64
    requires table { IsOf pass.old rows.now }
    requires row { row ≤ rows.now.rows }
    requires way { (key : ℕ) × (point : Point) × (ended : ℕ) × (low : ℕ) × (high : ℕ)
        × IsTrying pass.old.view key point ended low high × IsNext point row field }
    ensures pass { (below : ℕ) × Becomes pass.old pass.new (tried_on pass.old.view result below) }
    ensures bound { HasBound pass.old.view result }
{
    rows.load::<TryNext>(&mut pass.seat, row, field)
}

/// Loads the reader's last word, which answers its search at what the pass has now seen, or is trouble.
pub fn try_last_word(rows: &Rows, pass: &mut Pass, row: RowNo, field: Field) -> u64
    requires table { IsOf pass.old rows.now }
    requires row { row ≤ rows.now.rows }
    requires way { (key : ℕ) × (point : Point) × (ended : ℕ) × (low : ℕ) × (high : ℕ)
        × IsTrying pass.old.view key point ended low high × IsLast point row field }
    ensures { (seen : _) × Extends pass.old.view seen
        × Becomes pass.old pass.new (tried_last pass.old.view seen result)
        × HasAnswer pass.old.view.way.reads result seen }
{
    rows.load::<TryLast>(&mut pass.seat, row, field)
}

/// Loads the gate after trouble: more writes were entered than had ended when the read began. This ends it.
pub fn load_busy_gate(rows: &Rows, pass: &mut Pass) -> u64
    requires { IsOf pass.old rows.now }
    ensures pass { Becomes pass.old pass.new (busy_seen pass.old.view result) }
    ensures busy { (ended : ℕ) → pass.old.view.tries ≡ Troubled ended → ended < result / 2 }
{
    rows.table.shared.load::<LoadBusy>(&mut pass.seat, 1)
}
