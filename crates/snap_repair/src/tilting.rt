//! Rotations at a row of which one side is higher by two at least.
//!
//! A row is locked only while the row above it is held, so locks are taken downwards alone.
ghost use Rattle.std.specs.Prelude.{◌≡◌, ◌≢◌, ◌<◌, ◌≤◌, [], ◌∷◌, Some, IsTrue, MatchOption};
ghost use Rattle.snap_repair.specs.{Answers.IsMending, Answers.IsWornOut, Answers.Lowers, Answers.TriesRepair};
ghost use Rattle.snap_repair.specs.{Answers.Turns, Lowering.HasChildOn, Lowering.IsHigher, Mending.Looks};
ghost use Rattle.snap_repair.specs.{Raising.Lifts, Raising.TurnsNear};
ghost use Rattle.snap_prelude.specs.{Among, count_of, IsOf, last_count, Leans, other};
ghost use Rattle.snap_shape.specs.Grips.{AreWithin, IsEdge, IsTurning, IsWithin, Leads, edge_at};

use crate::answer::Repaired;
use crate::held::{grip_of, is_worn_out, look_at};
use crate::look::{height_at, is_routing, is_settled, lean, only_child};
use crate::settling::{lift, set_height};
use snap_copy::own_lower;
use snap_locks::{lock, unlock};
use snap_shape::{Edge, Grip, Turn, rotate, turn_of, unlink_child};
use snap_stamp::{Key, RowNo, Side};
use snap_steps::{Pass, Rows, aim};
use std::snapshot::Snapshot;
use std::sync::Wait;

/// A held row of which one side is higher by two at least, below the held row above it, in the epoch of the write.
#[derive(Clone, Copy)]
pub struct Leaning {
    pub edge: Edge,
    pub higher: Side,
    pub epoch: u64,
}

/// Turns a held row that leans: first its higher child is made one of this epoch and locked.
pub fn tilt<R: Wait>(rows: &Rows, rt: &R, pass: &mut Pass, leaning: &Leaning) -> Option<Repaired>
    requires table { IsOf pass.old rows.now }
    requires mending { IsMending pass.old.view }
    requires epoch { Among leaning.now.epoch pass.old.view.words.present }
    requires rows { IsWithin rows.now.rows leaning.now.edge }
    requires edge { IsEdge pass.old.view leaning.now.edge }
    requires two { pass.old.view.holds
        ≡ leaning.now.edge.child.row ∷ leaning.now.edge.parent.row ∷ [] }
    requires leans { Leans pass.old.view leaning.now.edge.child.row leaning.now.higher }
    requires child { HasChildOn pass.old.view leaning.now.edge.child.row leaning.now.higher }
    requires to_do { pass.old.view.debt.to_do ≡ Some leaning.now.edge.child.key }
    ensures { TriesRepair rows.now.rows pass.old pass.new result }
{
    let (upper, row) = (leaning.edge.parent.row, leaning.edge.child.row);
    let child = match own_lower(rows, rt, pass, row, leaning.higher) {
        Ok(child) => child,
        Err(full) => {
            return Some(Repaired::RowsOut {
                rows: full.rows,
                at: Snapshot::of(pass),
            });
        }
    };
    if child == row || child == upper {
        return None;
    }
    lock(rows, rt, pass, child);
    let why = at_child(rows, rt, pass, leaning, child);
    unlock(rows, pass, child);
    why
}

// The child is held: where it is settled the row is turned, and else it is repaired first.
fn at_child<R: Wait>(
    rows: &Rows,
    rt: &R,
    pass: &mut Pass,
    leaning: &Leaning,
    child: RowNo,
) -> Option<Repaired>
    requires table { IsOf pass.old rows.now }
    requires mending { IsMending pass.old.view }
    requires epoch { Among leaning.now.epoch pass.old.view.words.present }
    requires rows { IsWithin rows.now.rows leaning.now.edge × (child ≤ rows.now.rows) }
    requires edge { IsEdge pass.old.view leaning.now.edge }
    requires three { pass.old.view.holds
        ≡ child ∷ leaning.now.edge.child.row ∷ leaning.now.edge.parent.row ∷ [] }
    requires child { (child ≢ 0) × (child ≢ leaning.now.edge.child.row)
        × (child ≢ leaning.now.edge.parent.row) × Among child pass.old.view.trail.reached }
    requires leads { Leads pass.old.view leaning.now.edge.child.row leaning.now.higher child }
    requires leans { Leans pass.old.view leaning.now.edge.child.row leaning.now.higher }
    requires to_do { pass.old.view.debt.to_do ≡ Some leaning.now.edge.child.key }
    ensures { TriesRepair rows.now.rows pass.old pass.new result }
{
    let (row, key) = (leaning.edge.child.row, leaning.edge.child.key);
    let (higher, epoch) = (leaning.higher, leaning.epoch);
    let Some(lower) = grip_of(rows, pass, child, epoch) else {
        return None;
    };
    let lower_key = lower.key;
    let look = look_at(rows, pass, &lower);
    if !is_settled(&look) {
        aim(rows, pass, child, lower_key);
        return None;
    }
    let turn = turn_of(&leaning.edge, higher, &lower);
    let inner = height_at(&look, higher.other());
    let outer = height_at(&look, higher);
    if inner > outer {
        return tilt_inner(rows, rt, pass, &turn, epoch);
    }
    if turn_row(rows, pass, &turn, key) {
        None
    } else {
        Some(Repaired::StampOut {
            row,
            at: Snapshot::of(pass),
        })
    }
}

// The inner grandchild is higher: it is made one of this epoch and locked.
fn tilt_inner<R: Wait>(
    rows: &Rows,
    rt: &R,
    pass: &mut Pass,
    turn: &Turn,
    epoch: u64,
) -> Option<Repaired>
    requires table { IsOf pass.old rows.now }
    requires mending { IsMending pass.old.view }
    requires epoch { Among epoch pass.old.view.words.present }
    requires rows { AreWithin rows.now.rows turn.now }
    requires turn { IsTurning pass.old.view turn.now }
    requires three { pass.old.view.holds
        ≡ turn.now.raised.row ∷ turn.now.row.row ∷ turn.now.parent.row ∷ [] }
    requires leans { Leans pass.old.view turn.now.row.row turn.now.side }
    requires inner { IsHigher pass.old.view turn.now.raised.row (other turn.now.side)
        × HasChildOn pass.old.view turn.now.raised.row (other turn.now.side) }
    requires to_do { pass.old.view.debt.to_do ≡ Some turn.now.row.key }
    ensures { TriesRepair rows.now.rows pass.old pass.new result }
{
    let inward = turn.side.other();
    let (upper, row, lower) = (turn.parent.row, turn.row.row, turn.raised.row);
    let inner = match own_lower(rows, rt, pass, lower, inward) {
        Ok(inner) => inner,
        Err(full) => {
            return Some(Repaired::RowsOut {
                rows: full.rows,
                at: Snapshot::of(pass),
            });
        }
    };
    if inner == lower || inner == row || inner == upper {
        return None;
    }
    lock(rows, rt, pass, inner);
    let why = at_inner(rows, pass, turn, inner, epoch);
    unlock(rows, pass, inner);
    why
}

// The inner grandchild is held: where it is settled both rows are turned, and else it is repaired first.
fn at_inner(rows: &Rows, pass: &mut Pass, turn: &Turn, inner: RowNo, epoch: u64) -> Option<Repaired>
    requires table { IsOf pass.old rows.now }
    requires mending { IsMending pass.old.view }
    requires epoch { Among epoch pass.old.view.words.present }
    requires rows { AreWithin rows.now.rows turn.now × (inner ≤ rows.now.rows) }
    requires turn { IsTurning pass.old.view turn.now }
    requires held { Among inner pass.old.view.holds }
    requires leans { Leans pass.old.view turn.now.row.row turn.now.side }
    requires higher { IsHigher pass.old.view turn.now.raised.row (other turn.now.side) }
    requires inner { (inner ≢ 0) × (inner ≢ turn.now.raised.row) × (inner ≢ turn.now.row.row)
        × (inner ≢ turn.now.parent.row) × Among inner pass.old.view.trail.reached }
    requires leads { Leads pass.old.view turn.now.raised.row (other turn.now.side) inner }
    requires to_do { pass.old.view.debt.to_do ≡ Some turn.now.row.key }
    ensures { TriesRepair rows.now.rows pass.old pass.new result }
{
    let (lower, lower_key) = (turn.raised.row, turn.raised.key);
    let Some(raised) = grip_of(rows, pass, inner, epoch) else {
        return None;
    };
    let raised_key = raised.key;
    let look = look_at(rows, pass, &raised);
    if !is_settled(&look) {
        aim(rows, pass, lower, lower_key);
        aim(rows, pass, inner, raised_key);
        return None;
    }
    turn_twice(rows, pass, turn, &raised)
}

// Two rotations: the child is lowered below the inner grandchild, and then the row.
fn turn_twice(rows: &Rows, pass: &mut Pass, turn: &Turn, raised: &Grip) -> Option<Repaired>
    requires table { IsOf pass.old rows.now }
    requires mending { IsMending pass.old.view }
    requires rows { AreWithin rows.now.rows turn.now × (raised.now.row ≤ rows.now.rows) }
    requires turn { IsTurning pass.old.view turn.now }
    requires inner { IsEdge pass.old.view
        (edge_at turn.now.raised (other turn.now.side) raised.now) }
    requires apart { (turn.now.row.row ≢ raised.now.row) × (turn.now.parent.row ≢ raised.now.row) }
    requires leans { Leans pass.old.view turn.now.row.row turn.now.side }
    requires higher { IsHigher pass.old.view turn.now.raised.row (other turn.now.side) }
    requires to_do { pass.old.view.debt.to_do ≡ Some turn.now.row.key }
    ensures { TriesRepair rows.now.rows pass.old pass.new result }
{
    let (lower_key, raised_key) = (turn.raised.key, raised.key);
    if let Some(worn) = worn_row(rows, pass, turn) {
        return Some(Repaired::StampOut {
            row: worn,
            at: Snapshot::of(pass),
        });
    }
    let edge = Edge {
        parent: turn.row,
        side: turn.side,
        child: turn.raised,
    };
    let first = turn_of(&edge, turn.side.other(), raised);
    let lowered = rotate(rows, pass, &first, lower_key);
    let below = Edge {
        parent: *raised,
        side: turn.side,
        child: lowered,
    };
    if !drop_lowered(rows, pass, &below) {
        return None;
    }
    let above = Edge {
        parent: turn.parent,
        side: turn.parent_side,
        child: turn.row,
    };
    let second = turn_of(&above, turn.side, raised);
    lower_row(rows, pass, &second, raised_key);
    None
}

// Which of the two rows that are to be lowered may be lowered no more. Both are looked at before either is lowered.
fn worn_row(rows: &Rows, pass: &mut Pass, turn: &Turn) -> Option<RowNo>
    requires table { IsOf pass.old rows.now }
    requires mending { IsMending pass.old.view }
    requires rows { AreWithin rows.now.rows turn.now }
    requires turn { IsTurning pass.old.view turn.now }
    requires leans { Leans pass.old.view turn.now.row.row turn.now.side }
    requires higher { IsHigher pass.old.view turn.now.raised.row (other turn.now.side) }
    ensures looks { Looks pass.old pass.new }
    ensures worn { MatchOption result
        ((count_of turn.now.raised.stamp < last_count) × (count_of turn.now.row.stamp < last_count))
        (λ r. IsWornOut pass.old pass.new pass.new r) }
{
    let (row, lower) = (turn.row, turn.raised);
    if is_worn_out(rows, pass, &lower) {
        return Some(lower.row);
    }
    if is_worn_out(rows, pass, &row) {
        return Some(row.row);
    }
    None
}

// Of the row that the first of two rotations has lowered: it leaves the tree, or gets its height, and the to-do key
// goes up to the row above it. Where it leans, as it can't by the heights that were loaded before, it is left so.
fn drop_lowered(rows: &Rows, pass: &mut Pass, edge: &Edge) -> bool
    requires table { IsOf pass.old rows.now }
    requires mending { IsMending pass.old.view }
    requires rows { IsWithin rows.now.rows edge.now }
    requires parent { edge.now.parent.row ≢ 0 }
    requires edge { IsEdge pass.old.view edge.now }
    requires to_do { pass.old.view.debt.to_do ≡ Some edge.now.child.key }
    ensures keeps { Lifts pass.old pass.new edge.now.parent edge.now.child }
    ensures to_do { IsTrue result → pass.new.view.debt.to_do ≡ Some edge.now.parent.key }
{
    let row = edge.child;
    let look = look_at(rows, pass, &row);
    if is_routing(&look) {
        let only = only_child(&look);
        unlink_child(rows, pass, edge, only);
        return true;
    }
    if lean(&look).is_some() {
        return false;
    }
    lift(rows, pass, edge, &look);
    true
}

// Lowers a held row below its child, and sets the heights of both. Where the row's stamp is at its greatest count, it
// does neither.
fn turn_row(rows: &Rows, pass: &mut Pass, turn: &Turn, key: Key) -> bool
    requires table { IsOf pass.old rows.now }
    requires mending { IsMending pass.old.view }
    requires rows { AreWithin rows.now.rows turn.now }
    requires turn { IsTurning pass.old.view turn.now }
    requires aims { TurnsNear pass.old.view turn.now.parent.row turn.now.row.row
        turn.now.raised.row key }
    ensures { Turns pass.old pass.new turn.now result }
{
    let row = turn.row;
    if is_worn_out(rows, pass, &row) {
        return false;
    }
    lower_row(rows, pass, turn, key);
    true
}

// The same of a row whose stamp isn't at its greatest count.
fn lower_row(rows: &Rows, pass: &mut Pass, turn: &Turn, key: Key)
    requires table { IsOf pass.old rows.now }
    requires mending { IsMending pass.old.view }
    requires rows { AreWithin rows.now.rows turn.now }
    requires turn { IsTurning pass.old.view turn.now }
    requires aims { TurnsNear pass.old.view turn.now.parent.row turn.now.row.row
        turn.now.raised.row key }
    requires count { count_of turn.now.row.stamp < last_count }
    ensures { Lowers pass.old pass.new turn.now }
{
    let lowered = rotate(rows, pass, turn, key);
    let below = Edge {
        parent: turn.raised,
        side: turn.side.other(),
        child: lowered,
    };
    set_height(rows, pass, &below);
    let above = Edge {
        parent: turn.parent,
        side: turn.parent_side,
        child: turn.raised,
    };
    set_height(rows, pass, &above);
}
