//! The rows that a walk has still to pass, as far as its last way down the tree has met them.
ghost use Rattle.std.specs.Prelude.{◌≡◌, [], true, false};
ghost use Rattle.snap_view.specs.Ahead.{AddsAhead, met};

use crate::way::{MOST_LEVELS, child, reaches};
use arrayvec::ArrayVec;
use snap_stamp::{Key, RowNo, Side};
use snap_steps::RowCopy;

// Room for the rows of one way down.
const ROOM: usize = MOST_LEVELS as usize;

// A row that lies ahead, and the row below it on the far side, behind which the walk goes on.
#[derive(Clone, Copy, Drop)]
pub struct Ahead {
    pub key: Key,
    pub value: Option<u64>,
    pub beyond: RowNo,
}

impl Ahead {
    // What stands in a place that isn't used.
    const BLANK: Ahead = Ahead {
        key: 0,
        value: None,
        beyond: RowNo::HOLDER,
    };
}

impl Default for Ahead {
    fn default() -> Ahead {
        Ahead::BLANK
    }
}

// The rows ahead, the nearest one last. In a tree of more levels they may be too many: then they are lost.
#[derive(Drop)]
pub struct RowsAhead {
    pub rows: ArrayVec<Ahead, ROOM>,
    pub lost: bool,
}

impl RowsAhead {
    // None yet.
    pub fn none() -> RowsAhead
        ensures rows { result.rows.items ≡ [] }
        ensures lost { result.lost ≡ false }
    {
        let mut rows = ArrayVec::from_array_in((), [Ahead::BLANK; ROOM]);
        rows.clear();
        RowsAhead { rows, lost: false }
    }

    // Notes a row of a way down, if it lies ahead.
    pub fn meet(&mut self, copy: &RowCopy, side: Side, from: Key)
        ensures { AddsAhead self.old self.new (met side from copy.now) }
    {
        if !reaches(side, from, copy.key) {
            return;
        }
        let beyond = child(copy, side);
        let ahead = Ahead {
            key: copy.key,
            value: copy.value,
            beyond,
        };
        if self.rows.try_push(ahead).is_err() {
            self.lost = true;
        }
    }
}
