//! Repair debt: what a pass owes, and what holds of the debts of all passes.

ghost use Rattle.snap_rule.specs.Laws.Debts.{DebtDoingKept, DebtSteps, FitsKept, TurnedConcerns, UnderRoom};

use snap_stamp::{Key, RowNo, Stamp};
use std::collections::LinkedList;

/// A row on a list, with the stamp that it had then.
pub struct Mark {
    pub row: RowNo,
    pub stamp: Stamp,
}

/// What a pass in a write owes to the balance of the tree.
pub struct Debt {
    /// The key on whose search path the owed rows stand.
    pub to_do: Option<Key>,
    /// Rows, each owed as long as it has this stamp.
    pub list: LinkedList<Mark>,
    /// The row that the pass is lowering: it has marked the row as shrinking, and not yet cleared the mark.
    pub turning: Option<RowNo>,
}

/// One law for the debts at a step: the stepping pass accounts for each row of the new tree.
pub fn debt_steps()
    ensures { DebtSteps }
{}

/// Debts are spoken of only while there is room, so a law under room before the step serves.
pub fn under_room()
    ensures { UnderRoom }
{}

/// Another pass's step keeps a debt: the rows that are owed stay live and on their path.
pub fn fits_kept()
    ensures { FitsKept }
{}

/// A pass is lowering only a row of its change.
pub fn turned_concerns()
    ensures { TurnedConcerns }
{}

/// A step of another pass leaves a pass in a change what it knows of its debt.
pub fn debt_doing_kept()
    ensures { DebtDoingKept }
{}
