//! Rows under their locks, and how they are joined.
ghost use Rattle.std.specs.Prelude.{◌≡◌};
ghost use Rattle.snap_shape.specs.Grips.{turn_below};

use snap_stamp::{Key, RowNo, Side};

/// A row that a pass holds, with its key and its stamp, which has no mark.
#[derive(Clone, Copy)]
pub struct Grip {
    pub row: RowNo,
    pub key: Key,
    pub stamp: u64,
}

/// A held row and its held child on a side.
#[derive(Clone, Copy)]
pub struct Edge {
    pub parent: Grip,
    pub side: Side,
    pub child: Grip,
}

/// The rows of a rotation: `row` goes down, and its child `raised` on the side comes up in its place below the parent.
#[derive(Clone, Copy)]
pub struct Turn {
    pub parent: Grip,
    pub parent_side: Side,
    pub row: Grip,
    pub side: Side,
    pub raised: Grip,
}

/// The rotation by which a child goes down below its own child on the side.
pub fn turn_of(edge: &Edge, side: Side, raised: &Grip) -> Turn
    ensures { result ≡ turn_below edge.now side raised.now }
{
    Turn {
        parent: edge.parent,
        parent_side: edge.side,
        row: edge.child,
        side,
        raised: *raised,
    }
}
