//! The way down a tree to the row that is nearest to a key on one side of it.
ghost use Rattle.std.specs.Prelude.{◌≡◌, Some, if◌then◌else◌};
ghost use Rattle.snap_view.specs.Nearest.{reaches, turn, on, IsBehind};

use snap_stamp::{Key, RowNo, Side};
use snap_steps::RowCopy;

// A settled tree of fewer than 2^32 rows has no more levels than these.
pub const MOST_LEVELS: u32 = 64;

// Where a way down ended: the row that was looked for, as its key and its value if it has one, and how many rows
// stand on the way.
#[derive(Drop)]
pub struct WayDown {
    pub row: Option<(Key, Option<u64>)>,
    pub levels: u32,
}

// Whether the key is `from` or lies on that side of it.
pub fn reaches(side: Side, from: Key, key: Key) -> bool
    ensures { result ≡ reaches side from key }
{
    match side {
        Side::Left => key <= from,
        Side::Right => from <= key,
    }
}

// The row below this one on that side, 0 for none.
pub fn child(copy: &RowCopy, side: Side) -> RowNo
    ensures { result ≡ on side copy.now.left copy.now.right }
{
    match side {
        Side::Left => copy.left,
        Side::Right => copy.right,
    }
}

// The row below this one on the way to the row nearest to `from`: back toward `from` where this one reaches.
pub fn below(copy: &RowCopy, side: Side, from: Key) -> RowNo
    ensures { result ≡ on (turn side from copy.now.key) copy.now.left copy.now.right }
{
    let turn = if reaches(side, from, copy.key) {
        side.other()
    } else {
        side
    };
    child(copy, turn)
}

// The nearer of two rows, where the copy is nearer than the best so far if it reaches.
pub fn nearer(
    best: Option<(Key, Option<u64>)>,
    copy: &RowCopy,
    side: Side,
    from: Key,
) -> Option<(Key, Option<u64>)>
    ensures { result
        ≡ (if reaches side from copy.now.key then Some (copy.now.key, copy.now.value) else best) }
{
    if reaches(side, from, copy.key) {
        Some((copy.key, copy.value))
    } else {
        best
    }
}

// The next key on that side, if there is one.
pub fn behind(side: Side, key: Key) -> Option<Key>
    ensures { IsBehind side key result }
{
    match side {
        Side::Left => key.checked_sub(1),
        Side::Right => key.checked_add(1),
    }
}
