//! The two sides of a row. What is done on one side is written once, over a side, and so holds of its mirror image.
ghost use Rattle.std.specs.Prelude.{◌≡◌, ◌≢◌};
ghost use Rattle.snap_stamp.specs.Sides.{link_field, other, Toward};

use crate::{Field, Key};

/// A side of a row: smaller keys stand on its left, greater ones on its right.
#[derive(Clone, Copy, Debug, PartialEq, Eq)]
pub enum Side {
    Left,
    Right,
}

impl Side {
    /// The opposite side.
    pub fn other(self) -> Side
        ensures { result ≡ other self }
    {
        match self {
            Side::Left => Side::Right,
            Side::Right => Side::Left,
        }
    }

    /// The field of a row in which the link on this side stands.
    pub fn link(self) -> Field
        ensures { result ≡ link_field self }
    {
        match self {
            Side::Left => Field::Left,
            Side::Right => Field::Right,
        }
    }

    /// The side of a row with this key on which another key is to be looked for.
    pub fn toward(row_key: Key, key: Key) -> Side
        requires { row_key ≢ key }
        ensures { Toward result key row_key }
    {
        if key < row_key {
            Side::Left
        } else {
            Side::Right
        }
    }
}
