//! What the words of a held row say of its balance.
ghost use Rattle.std.specs.Prelude.{◌≡◌, ◌↔◌, IsTrue, MatchOption};
ghost use Rattle.snap_repair.specs.Looking.{IsEven, LeansTo, Routes, LooksSettled, height_on, height_over, only_of};

use snap_stamp::{RowNo, Side};

const GREATEST: u64 = 18_446_744_073_709_551_615;

/// The value word, the links and the height of a row, and the stored heights of its children, 0 for none.
#[derive(Clone, Copy)]
pub struct Look {
    pub value: u64,
    pub left: RowNo,
    pub right: RowNo,
    pub height: u64,
    pub left_height: u64,
    pub right_height: u64,
}

/// Whether the row has no value and one child at most.
pub fn is_routing(look: &Look) -> bool
    ensures { IsTrue result ↔ Routes look.now }
{
    look.value == 0 && (look.left.is_none() || look.right.is_none())
}

/// The one child of such a row.
pub fn only_child(look: &Look) -> RowNo
    requires { Routes look.now }
    ensures { only_of look.now result }
{
    if look.left.is_none() {
        look.right
    } else {
        look.left
    }
}

/// The side that is higher by two at least.
pub fn lean(look: &Look) -> Option<Side>
    ensures { MatchOption result (IsEven look.now) (λ d. LeansTo look.now d) }
{
    if look.left_height >= 2 && look.left_height - 2 >= look.right_height {
        return Some(Side::Left);
    }
    if look.right_height >= 2 && look.right_height - 2 >= look.left_height {
        return Some(Side::Right);
    }
    None
}

/// The height that the row should have.
pub fn height_due(look: &Look) -> u64
    ensures { result ≡ height_over look.now }
{
    let higher = if look.left_height > look.right_height {
        look.left_height
    } else {
        look.right_height
    };
    if higher == GREATEST {
        GREATEST
    } else {
        higher + 1
    }
}

/// Whether the row is settled.
pub fn is_settled(look: &Look) -> bool
    ensures { IsTrue result ↔ LooksSettled look.now }
{
    let height = look.height;
    if is_routing(look) {
        return false;
    }
    if lean(look).is_some() {
        return false;
    }
    height == height_due(look)
}

/// The stored height on a side.
pub fn height_at(look: &Look, side: Side) -> u64
    ensures { result ≡ height_on look.now side }
{
    match side {
        Side::Left => look.left_height,
        Side::Right => look.right_height,
    }
}
