//! Heights that were loaded under a lock.

ghost use Rattle.snap_rule.specs.Laws.Heights.{ChildLoaded, HeightsApart, HeightsHeight, HeldWords, LoadedSettled};

/// A step that leaves a row alone and stores no height keeps the heights below the row.
pub fn heights_apart()
    ensures { HeightsApart }
{}

/// So does `store_height` below another parent.
pub fn heights_height()
    ensures { HeightsHeight }
{}

/// What the kinds that store values and heights leave of a row that another pass holds.
pub fn held_words()
    ensures { HeldWords }
{}

/// What was loaded tells that a row is settled.
pub fn loaded_settled()
    ensures { LoadedSettled }
{}

/// The height of a child is that of the row that the loaded link names.
pub fn child_loaded()
    ensures { ChildLoaded }
{}
