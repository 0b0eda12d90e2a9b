//! Each kind of step keeps the debts.

ghost use Rattle.snap_rule.specs.Laws.DebtKinds.{AimOwes, ClearOwes, CopyOwes, CutOwes, HeightOwes, LastOwes, LeafOwes, LeaveOwes, OpensOwes, OwnSilent, RaiseOwes, RaiseTurns, ShrinkOwes, SilentKinds, SilentOwes, StoreOwes, TurnKept, UnlinkOwes, UpOwes};

/// `store_value` keeps the debts.
pub fn store_owes()
    ensures { StoreOwes }
{}

/// `link_leaf` keeps the debts.
pub fn leaf_owes()
    ensures { LeafOwes }
{}

/// A step that leaves the tree, and what settles its rows, keeps the debts.
pub fn silent_owes()
    ensures { SilentOwes }
{}

/// Such are `confirm_absent`, the locks, the header, `splice`, `link_lowered` and `link_raised`.
pub fn silent_kinds()
    ensures { SilentKinds }
{}

/// Such is `store_own`.
pub fn own_silent()
    ensures { OwnSilent }
{}

/// A pass that owes nothing may enter or leave a write.
pub fn leave_owes()
    ensures { LeaveOwes }
{}

/// `store_height` keeps the debts.
pub fn height_owes()
    ensures { HeightOwes }
{}

/// `pass_up` keeps the debts.
pub fn up_owes()
    ensures { UpOwes }
{}

/// `settle_last` keeps the debts.
pub fn last_owes()
    ensures { LastOwes }
{}

/// `aim` keeps the debts.
pub fn aim_owes()
    ensures { AimOwes }
{}

/// `mark_unlinked` keeps the debts.
pub fn unlink_owes()
    ensures { UnlinkOwes }
{}

/// `link_copy` keeps the debts.
pub fn copy_owes()
    ensures { CopyOwes }
{}

/// `cut` keeps the debts, where no pass owes.
pub fn cut_owes()
    ensures { CutOwes }
{}

/// `mark_shrinking` keeps the debts.
pub fn shrink_owes()
    ensures { ShrinkOwes }
{}

/// `link_parent` keeps the debts.
pub fn raise_owes()
    ensures { RaiseOwes }
{}

/// `clear_shrinking` keeps the debts.
pub fn clear_owes()
    ensures { ClearOwes }
{}

/// After `link_parent` the pass is lowering the row, and owes it.
pub fn raise_turns()
    ensures { RaiseTurns }
{}

/// A step of another pass leaves it so.
pub fn turn_kept()
    ensures { TurnKept }
{}

/// A table that was just opened.
pub fn opens_owes()
    ensures { OpensOwes }
{}
