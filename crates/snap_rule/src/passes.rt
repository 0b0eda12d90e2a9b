//! Whole steps, over the views of all passes.

ghost use Rattle.snap_rule.specs.Laws.Passes.{HeldLeave, StepHolds};

/// A step whose pass holds what it changes leaves alone what others hold.
pub fn held_leave()
    ensures { HeldLeave }
{}

/// One law for a whole step: the stepping pass shows its own view, and all others keep theirs.
pub fn step_holds()
    ensures { StepHolds }
{}
