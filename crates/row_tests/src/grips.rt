//! The rows of a change of the tree's shape, which a pass takes one below the other.
ghost use Rattle.std.specs.Prelude.{◌≡◌, ◌≢◌, ◌<◌, ◌≤◌, [], IfSome, IsTrue, MatchOption};
ghost use Rattle.snap_copy.specs.Mending.{Looks};
ghost use Rattle.snap_repair.specs.Answers.{IsMending};
ghost use Rattle.snap_prelude.specs.{Among, IsOf, no_debt, Right};
ghost use Rattle.snap_search.specs.Prelude.{IsReached};
ghost use Rattle.snap_shape.specs.Grips.{HasGrip};
ghost use Rattle.row_tests.specs.Stopping.{HoldsOnly, IsUnlinkable, MayTurn, MayTurnRoot, MayUnlink, MayUnlinkRoot};
ghost use Rattle.row_tests.specs.Stopping.{Takes, TakesEdge, TakesTop};

use crate::waits::comes;
use snap_locks::lock;
use snap_shape::{Edge, Grip, Turn, child_of, turn_of};
use snap_stamp::{Field, Key, RowNo, Side, Stamp};
use snap_steps::{Pass, Rows, load_epoch, load_key, load_word};
use std::sync::Wait;

// The key and the stamp of a held row, where it has no mark and is row 0 or of this epoch.
fn grip_of(rows: &Rows, pass: &mut Pass, row: RowNo) -> Option<Grip>
    requires table { IsOf pass.old rows.now }
    requires mending { IsMending pass.old.view }
    requires row { row ≤ rows.now.rows }
    requires held { Among row pass.old.view.holds }
    requires reached { IsReached pass.old.view row }
    ensures grip { MatchOption result (Looks pass.old pass.new)
        (λ g. (g.row ≡ row) × Looks pass.old pass.new × HasGrip pass.new.view g) }
{
    let epoch = load_epoch(rows, pass);
    let birth = load_word(rows, pass, row, Field::Birth);
    let stamp = load_word(rows, pass, row, Field::Stamp);
    let key = load_key(rows, pass, row);
    if stamp % 4 != 0 {
        return None;
    }
    if row.is_none() || birth == epoch {
        Some(Grip { row, key, stamp })
    } else {
        None
    }
}

// Locks the child of a held row, where it isn't a row that is held.
fn take_child<R: Wait>(
    rows: &Rows,
    rt: &R,
    pass: &mut Pass,
    upper: RowNo,
    parent: &Grip,
    side: Side,
) -> Option<Grip>
    requires table { IsOf pass.old rows.now }
    requires mending { IsMending pass.old.view }
    requires row { parent.now.row ≤ rows.now.rows }
    requires grip { HasGrip pass.old.view parent.now }
    requires on_right { parent.now.row ≡ 0 → side ≡ Right }
    requires only { HoldsOnly pass.old.view upper parent.now.row }
    ensures { IfSome result (λ g. Takes rows.now.rows pass.old pass.new upper parent.now side g) }
{
    let child = child_of(rows, pass, parent, side);
    if child.is_none() || child == upper || child == parent.row {
        return None;
    }
    lock(rows, rt, pass, child);
    let grip = grip_of(rows, pass, child)?;
    Some(grip)
}

// Locks row 0 and the root.
fn take_top<R: Wait>(rows: &Rows, rt: &R, pass: &mut Pass) -> Option<Edge>
    requires table { IsOf pass.old rows.now }
    requires mending { IsMending pass.old.view }
    requires free { pass.old.view.holds ≡ [] }
    ensures { IfSome result (λ e. TakesTop rows.now.rows pass.old pass.new e) }
{
    let holder = RowNo::HOLDER;
    lock(rows, rt, pass, holder);
    let top = grip_of(rows, pass, holder)?;
    let root = take_child(rows, rt, pass, holder, &top, Side::Right)?;
    Some(Edge {
        parent: top,
        side: Side::Right,
        child: root,
    })
}

// Locks row 0, the root, and the root's child on a side.
fn take_edge<R: Wait>(rows: &Rows, rt: &R, pass: &mut Pass, side: Side) -> Option<Edge>
    requires table { IsOf pass.old rows.now }
    requires mending { IsMending pass.old.view }
    requires free { pass.old.view.holds ≡ [] }
    ensures { IfSome result (λ e. TakesEdge rows.now.rows pass.old pass.new e) }
{
    let edge = take_top(rows, rt, pass)?;
    let root = edge.child;
    let row = take_child(rows, rt, pass, RowNo::HOLDER, &root, side)?;
    Some(Edge {
        parent: root,
        side,
        child: row,
    })
}

// The rows of a rotation at the right child of the root, which is to go down below its own right child. That one is
// locked once a value is found at the awaited key.
pub(crate) fn take_turn<R: Wait>(
    rows: &Rows,
    rt: &R,
    pass: &mut Pass,
    reader: &mut Pass,
    awaited: Key,
) -> Option<Turn>
    requires table { IsOf pass.old rows.now }
    requires mending { IsMending pass.old.view }
    requires free { pass.old.view.holds ≡ [] }
    requires owes { pass.old.view.debt ≡ no_debt }
    requires reader { IsOf reader.old rows.now }
    ensures reader { IsOf reader.new rows.now }
    ensures turn { IfSome result (λ t. MayTurn rows.now pass.old pass.new t) }
{
    let edge = take_edge(rows, rt, pass, Side::Right)?;
    let (root, row) = (edge.parent, edge.child);
    if !comes(rows, reader, awaited) {
        return None;
    }
    let raised = take_child(rows, rt, pass, root.row, &row, Side::Right)?;
    if Stamp::of(row.stamp).is_last() {
        return None;
    }
    let turn = turn_of(&edge, Side::Right, &raised);
    Some(turn)
}

// The rows of a rotation at the root, which is to go down below its right child: row 0, the root and that child.
pub(crate) fn take_top_turn<R: Wait>(rows: &Rows, rt: &R, pass: &mut Pass) -> Option<Turn>
    requires table { IsOf pass.old rows.now }
    requires mending { IsMending pass.old.view }
    requires free { pass.old.view.holds ≡ [] }
    requires owes { pass.old.view.debt ≡ no_debt }
    ensures { IfSome result (λ t. MayTurnRoot rows.now pass.old pass.new t) }
{
    let edge = take_top(rows, rt, pass)?;
    let root = edge.child;
    let raised = take_child(rows, rt, pass, RowNo::HOLDER, &root, Side::Right)?;
    if Stamp::of(root.stamp).is_last() {
        return None;
    }
    let turn = turn_of(&edge, Side::Right, &raised);
    Some(turn)
}

// Whether a held row may be unlinked: it has neither a value nor children, and the to-do key is its own.
fn is_gone(rows: &Rows, pass: &mut Pass, row: &Grip) -> bool
    requires table { IsOf pass.old rows.now }
    requires mending { IsMending pass.old.view }
    requires row { (row.now.row ≤ rows.now.rows) × (row.now.row ≢ 0) }
    requires grip { HasGrip pass.old.view row.now }
    ensures looks { Looks pass.old pass.new }
    ensures gone { IsTrue result → IsUnlinkable pass.new.view row.now.row }
{
    let value = load_word(rows, pass, row.row, Field::Value);
    let left = load_word(rows, pass, row.row, Field::Left);
    let right = load_word(rows, pass, row.row, Field::Right);
    if value != 0 || left != 0 || right != 0 {
        return false;
    }
    let Some(to_do) = pass.to_do() else {
        return false;
    };
    to_do == row.key
}

// The rows of an unlinking, one below the other: the root, its left child, and the right child of that, which has
// neither a value nor children.
pub(crate) fn take_routing<R: Wait>(rows: &Rows, rt: &R, pass: &mut Pass) -> Option<Turn>
    requires table { IsOf pass.old rows.now }
    requires mending { IsMending pass.old.view }
    requires free { pass.old.view.holds ≡ [] }
    ensures { IfSome result (λ t. MayUnlink rows.now pass.old pass.new t) }
{
    let edge = take_edge(rows, rt, pass, Side::Left)?;
    let (root, row) = (edge.parent, edge.child);
    let raised = take_child(rows, rt, pass, root.row, &row, Side::Right)?;
    if !is_gone(rows, pass, &raised) {
        return None;
    }
    let turn = turn_of(&edge, Side::Right, &raised);
    Some(turn)
}

// The rows of an unlinking at the top: row 0 and the root, which has neither a value nor children.
pub(crate) fn take_root<R: Wait>(rows: &Rows, rt: &R, pass: &mut Pass) -> Option<Edge>
    requires table { IsOf pass.old rows.now }
    requires mending { IsMending pass.old.view }
    requires free { pass.old.view.holds ≡ [] }
    ensures { IfSome result (λ e. MayUnlinkRoot rows.now pass.old pass.new e) }
{
    let edge = take_top(rows, rt, pass)?;
    let root = edge.child;
    if !is_gone(rows, pass, &root) {
        return None;
    }
    Some(edge)
}
