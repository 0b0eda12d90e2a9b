//! Readers: the points of a way, what every step keeps of them, and what each load tells.

ghost use Rattle.snap_rule.specs.Laws.Readers.{KeyDiffers, KeyMatches, LinkAgain, LinkFound, LinkNone, NoneAnswered, NoneConfirmed, PositionKept, ReaderKept, RowConfirmed, StampLoaded, ValueLoaded, WayStarts};

use snap_stamp::{Key, RowNo, Side, Stamp};

/// Where a reader stands on its way to a key. It stands at a row whose stamp it loaded, and goes on by the link on
/// one side. Each load brings it to the next point: the link, the child's stamp, the link again, the row's stamp again,
/// the child's key.
pub enum Point {
    /// At a row, before the load of its link.
    Standing {
        row: RowNo,
        stamp: Stamp,
        side: Side,
    },
    /// The link was 0.
    NoLink {
        row: RowNo,
        stamp: Stamp,
        side: Side,
    },
    /// The link named a child.
    Linked {
        row: RowNo,
        stamp: Stamp,
        side: Side,
        child: RowNo,
    },
    /// The child's stamp had no mark.
    Stamped {
        row: RowNo,
        stamp: Stamp,
        side: Side,
        child: RowNo,
        child_stamp: Stamp,
    },
    /// The link named the same child again.
    Relinked {
        row: RowNo,
        stamp: Stamp,
        child: RowNo,
        child_stamp: Stamp,
    },
    /// The row had its stamp still: the way leads to the child.
    Confirmed {
        child: RowNo,
        child_stamp: Stamp,
    },
    /// The row had its stamp still, after a link of 0: the way ends.
    ConfirmedNone,
    /// The child has the key.
    Matched {
        child: RowNo,
    },
}

/// Whether a pass is on a way to a key.
pub enum Reading {
    Resting,
    On { key: Key, point: Point },
}

/// A row at which a search may stand stays one while its stamp stays.
pub fn position_kept()
    ensures { PositionKept }
{}

/// A step that evolves the table keeps what is known at each point.
pub fn reader_kept()
    ensures { ReaderKept }
{}

/// A way starts at row 0.
pub fn way_starts()
    ensures { WayStarts }
{}

/// A link that is loaded as 0 tells that the key was absent, if the row has its stamp still.
pub fn link_none()
    ensures { LinkNone }
{}

/// A link that names a child.
pub fn link_found()
    ensures { LinkFound }
{}

/// The child's stamp, which has no mark.
pub fn stamp_loaded()
    ensures { StampLoaded }
{}

/// The link once more, naming the same child: the way leads to it, if the row has its stamp still.
pub fn link_again()
    ensures { LinkAgain }
{}

/// The row's stamp once more, after a link of 0.
pub fn none_confirmed()
    ensures { NoneConfirmed }
{}

/// The row's stamp once more, after a child.
pub fn row_confirmed()
    ensures { RowConfirmed }
{}

/// The child has another key: the reader stands at it.
pub fn key_differs()
    ensures { KeyDiffers }
{}

/// The child has the key.
pub fn key_matches()
    ensures { KeyMatches }
{}

/// The child's value is what the map had at some moment since the reader began.
pub fn value_loaded()
    ensures { ValueLoaded }
{}

/// None is what the map had at some moment, where the way has ended.
pub fn none_answered()
    ensures { NoneAnswered }
{}
