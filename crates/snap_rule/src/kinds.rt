//! Each kind of step evolves the table and keeps the parts of the rule that speak of no pass.

ghost use Rattle.snap_rule.specs.Laws.Marks.{MarksKept};
ghost use Rattle.snap_rule.specs.Laws.Kinds.{AbsentKeeps, ClearKeeps, CopyKeeps, CutKeeps, HeaderKeeps, HeightKeeps, LeafKeeps, LiftKeeps, LockKeeps, LowerKeeps, Opens, OwnKeeps, RaiseKeeps, ShrinkKeeps, SpliceKeeps, StoreKeeps, UnlinkKeeps};

/// A table that was just opened meets the rule.
pub fn opens()
    ensures { Opens }
{}

/// `store_own` keeps the rule.
pub fn own_keeps()
    ensures { OwnKeeps }
{}

/// `try_lock` and `free_lock` keep the rule.
pub fn lock_keeps()
    ensures { LockKeeps }
{}

/// `try_enter`, `count_left`, `try_close`, `open_gate` keep the rule.
pub fn header_keeps()
    ensures { HeaderKeeps }
{}

/// `link_leaf` keeps the rule.
pub fn leaf_keeps()
    ensures { LeafKeeps }
{}

/// `store_value` keeps the rule.
pub fn store_keeps()
    ensures { StoreKeeps }
{}

/// `confirm_absent` keeps the rule.
pub fn absent_keeps()
    ensures { AbsentKeeps }
{}

/// `cut` keeps the rule.
pub fn cut_keeps()
    ensures { CutKeeps }
{}

/// `link_copy` keeps the rule.
pub fn copy_keeps()
    ensures { CopyKeeps }
{}

/// `mark_unlinked` keeps the rule.
pub fn unlink_keeps()
    ensures { UnlinkKeeps }
{}

/// `splice` keeps the rule.
pub fn splice_keeps()
    ensures { SpliceKeeps }
{}

/// `mark_shrinking` keeps the rule.
pub fn shrink_keeps()
    ensures { ShrinkKeeps }
{}

/// `link_lowered` keeps the rule.
pub fn lower_keeps()
    ensures { LowerKeeps }
{}

/// `link_raised` keeps the rule.
pub fn lift_keeps()
    ensures { LiftKeeps }
{}

/// `link_parent` keeps the rule.
pub fn raise_keeps()
    ensures { RaiseKeeps }
{}

/// `clear_shrinking` keeps the rule.
pub fn clear_keeps()
    ensures { ClearKeeps }
{}

/// `store_height` keeps the rule.
pub fn height_keeps()
    ensures { HeightKeeps }
{}

/// No kind but `mark_shrinking` marks a row of the tree, and `clear_shrinking` takes its mark away.
pub fn marks_kept()
    ensures { MarksKept }
{}
