//! Examples that show why three clauses of the rule are as they are.

ghost use Rattle.snap_rule.specs.Examples.{LeavesWay, EarlyStamp, ListedLeaves};

/// A place of the tree is only claimed to stay one while its stamp has no mark: in the midst of a rotation it may not.
pub fn lowered_leaves()
    ensures { LeavesWay }
{}

/// A row that one pass is lowering must be owed by no other: it leaves the path of the other.
pub fn listed_leaves()
    ensures { ListedLeaves }
{}

/// A listed stamp must be of the past: one that the row has yet to reach would be owed one day.
pub fn early_stamp()
    ensures { EarlyStamp }
{}
