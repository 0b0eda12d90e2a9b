//! Settled rows and trees, and room to repair.

ghost use Rattle.snap_rule.specs.Laws.Settled.{AllSettled, CutCause, FewStand, PairsFew, ReasonLasts, RoomBefore, SettledShallow, SharedSettled, StampFound};

/// Room after a step gives room before it.
pub fn room_before()
    ensures { RoomBefore }
{}

/// A reason lasts, and excludes room.
pub fn reason_lasts()
    ensures { ReasonLasts }
{}

/// A shared row of the tree is settled.
pub fn shared_settled()
    ensures { SharedSettled }
{}

/// Where no pass owes, the tree is settled.
pub fn all_settled()
    ensures { AllSettled }
{}

/// A settled tree is shallow.
pub fn settled_shallow()
    ensures { SettledShallow }
{}

/// A tree of some depth has fewer pairs than the full one.
pub fn pairs_few()
    ensures { PairsFew }
{}

/// A tree has no more rows than were handed out.
pub fn few_stand()
    ensures { FewStand }
{}

/// Where rows are left and there is no room, a row shows it.
pub fn stamp_found()
    ensures { StampFound }
{}

/// What a cut shares is settled, or there is a reason.
pub fn cut_cause()
    ensures { CutCause }
{}
