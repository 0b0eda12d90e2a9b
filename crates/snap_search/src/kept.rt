//! The last rows of a way down, for a repair that goes up it again. They are hints: a row may have another place
//! meanwhile, or have left the tree, so whoever takes one checks it under its locks.
ghost use Rattle.std.specs.Prelude.{◌≡◌, ◌-◌, [], length, slice_get, false};
ghost use Rattle.snap_search.specs.Kept.{GoesUp, kept_end, step_at, with_step};

use crate::down::Spot;
use crate::endings::Ending;
use arrayvec::ArrayVec;
use snap_stamp::{RowNo, Side};

// How many of the last rows are kept.
const ROOM: usize = 32;

/// A row at which a search stood, and the side on which it went on.
#[derive(Clone, Copy, Drop)]
pub struct Step {
    pub row: RowNo,
    pub side: Side,
}

impl Step {
    // What stands in a place that isn't used.
    const BLANK: Step = Step {
        row: RowNo::HOLDER,
        side: Side::Right,
    };
}

impl Default for Step {
    fn default() -> Step {
        Step::BLANK
    }
}

/// The last rows of a way down, the lowest one last: for a repair that is the row above the one at which the way ended,
/// and behind a search for a write the row at which the place is.
/// Clauses say what holds of each row that is kept (`IsWay`), and not which these are.
#[derive(Drop)]
pub struct Way {
    pub steps: ArrayVec<Step, ROOM>,
    /// Behind the last turn by it the key was to do that had been before.
    pub stayed: bool,
}

impl Way {
    /// No row is kept.
    pub fn none() -> Way
        ensures steps { result.steps.items ≡ [] }
        ensures stayed { result.stayed ≡ false }
    {
        let mut steps = ArrayVec::from_array_in((), [Step::BLANK; ROOM]);
        steps.clear();
        Way {
            steps,
            stayed: false,
        }
    }

    /// Lets go what was kept.
    pub fn clear(&mut self)
        ensures steps { self.new.steps.items ≡ [] }
        ensures stayed { self.new.stayed ≡ false }
    {
        self.steps.clear();
        self.stayed = false;
    }

    /// Keeps the row from which the way goes on.
    pub(crate) fn meet(&mut self, spot: &Spot)
        ensures steps { self.new.steps.items ≡ with_step self.old.steps.items (step_at spot.now) }
        ensures stayed { self.new.stayed ≡ self.old.stayed }
    {
        self.keep(Step {
            row: spot.row,
            side: spot.side,
        });
    }

    /// Keeps a row. Where there is no room, what was kept before is let go.
    pub fn keep(&mut self, step: Step)
        ensures steps { self.new.steps.items ≡ with_step self.old.steps.items step }
        ensures stayed { self.new.stayed ≡ self.old.stayed }
    {
        if self.steps.is_full() {
            self.steps.clear();
        }
        self.steps.push(step);
    }

    /// The lowest row.
    pub fn lowest(&self) -> Option<Step>
        ensures { result ≡ slice_get self.now.steps.items (length self.now.steps.items - 1) }
    {
        self.steps.as_slice().last().copied()
    }

    /// The lowest row, which is kept no more, and the one above it, as an end of a way at a row that may have the key.
    /// None where the lowest row is row 0, or the only one.
    pub fn go_up(&mut self) -> Option<Ending>
        ensures goes { GoesUp self.old.steps.items self.new.steps.items result }
        ensures stayed { self.new.stayed ≡ self.old.stayed }
    {
        let last = self.steps.pop()?;
        if last.row.is_none() {
            return None;
        }
        let above = self.steps.as_slice().last()?;
        Some(kept_end(above, &last))
    }
}

// A kept row below the one above it. Its stamp isn't kept.
fn kept_end(above: &Step, last: &Step) -> Ending
    ensures { result ≡ kept_end above.now last.now }
{
    Ending {
        above: above.row,
        above_side: above.side,
        row: last.row,
        stamp: 0,
        side: last.side,
        here: true,
    }
}
