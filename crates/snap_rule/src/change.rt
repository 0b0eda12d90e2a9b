//! Changes in progress: their steps, and what steps of other passes leave of them.

ghost use Rattle.snap_rule.specs.Laws.Changes.{ClearDoing, DoingKept, LiftDoing, LowerDoing, OthersLeave, RaiseDoing, ShrinkDoing, SpliceDoing, UnlinkDoing};

use snap_stamp::{RowNo, Side};

/// The change that a pass is in, by its last step. An unlinking has two steps, a rotation five.
pub enum Doing {
    Nothing,
    /// The row has the unlinked mark, and `only` is its one child or 0.
    Unlinked {
        parent: RowNo,
        side: Side,
        row: RowNo,
        only: RowNo,
    },
    /// The row has the shrinking mark; its child on `side` is to be raised.
    Shrunk {
        parent: RowNo,
        parent_side: Side,
        row: RowNo,
        side: Side,
        raised: RowNo,
    },
    /// The row's link leads to the subtree between the two.
    Lowered {
        parent: RowNo,
        parent_side: Side,
        row: RowNo,
        side: Side,
        raised: RowNo,
    },
    /// The raised row's link leads to the row.
    Lifted {
        parent: RowNo,
        parent_side: Side,
        row: RowNo,
        side: Side,
        raised: RowNo,
    },
    /// The parent's link leads to the raised row; the shrinking mark is left to be cleared.
    Turned {
        row: RowNo,
    },
}

/// What a pass knows after `mark_unlinked`.
pub fn unlink_doing()
    ensures { UnlinkDoing }
{}

/// It may `splice` then.
pub fn splice_doing()
    ensures { SpliceDoing }
{}

/// What a pass knows after `mark_shrinking`.
pub fn shrink_doing()
    ensures { ShrinkDoing }
{}

/// It may `link_lowered` then, and what it knows afterwards.
pub fn lower_doing()
    ensures { LowerDoing }
{}

/// It may `link_raised` then, and what it knows afterwards.
pub fn lift_doing()
    ensures { LiftDoing }
{}

/// It may `link_parent` then, and what it knows afterwards.
pub fn raise_doing()
    ensures { RaiseDoing }
{}

/// It may `clear_shrinking` at last.
pub fn clear_doing()
    ensures { ClearDoing }
{}

/// A step that leaves a change's rows alone keeps what is known of the change.
pub fn doing_kept()
    ensures { DoingKept }
{}

/// Which rows each kind of step leaves alone.
pub fn others_leave()
    ensures { OthersLeave }
{}
