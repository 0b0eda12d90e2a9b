//! Calls of `try_get`: what they know while no write is entered.

ghost use Rattle.snap_rule.specs.Laws.Quiescence.{CalmBegins, CalmGoesOn, CalmKept, QuietBegins, QuietKept, QuietLoads, TroubleTells};

use snap_stamp::{Field, Key, RowNo};
use std::collections::LinkedList;

/// A word of a row that a call loaded.
pub struct Load {
    pub row: RowNo,
    pub field: Field,
    pub found: u64,
}

/// Whether a pass is in a call of `try_get`.
pub enum Trying {
    Idle,
    /// The count of ended writes that the call began with, the words that it loaded since, and the child at which it
    /// stands, whose keys are at least `low` and below `high`.
    Since {
        ended: u64,
        loads: LinkedList<Load>,
        low: Key,
        high: Key,
        child: RowNo,
    },
    /// It met trouble, so a write was entered since it loaded this count of ended writes.
    Troubled {
        ended: u64,
    },
}

/// A call that loads the count of ended writes.
pub fn quiet_begins()
    ensures { QuietBegins }
{}

/// A word that it loads then.
pub fn quiet_loads()
    ensures { QuietLoads }
{}

/// A step that evolves the table keeps what is known of the call.
pub fn quiet_kept()
    ensures { QuietKept }
{}

/// Where no write is open the whole tree is ordered and without marks.
pub fn calm_begins()
    ensures { CalmBegins }
{}

/// So it is below the next row of a way.
pub fn calm_goes_on()
    ensures { CalmGoesOn }
{}

/// A step that evolves the table keeps it.
pub fn calm_kept()
    ensures { CalmKept }
{}

/// Trouble in such a call tells that a write was entered since.
pub fn trouble_tells()
    ensures { TroubleTells }
{}
