//! The table of repairs at a held row, and heights.
ghost use Rattle.std.specs.Prelude.{◌≡◌, [], ◌∷◌, Some};
ghost use Rattle.snap_repair.specs.Answers.{IsMending, TriesRepair};
ghost use Rattle.snap_repair.specs.Looking.{HasLook, IsEven, Routes};
ghost use Rattle.snap_repair.specs.Raising.{Heightens, Lifts, RaisesFor, SetsRight};
ghost use Rattle.snap_shape.specs.Grips.{IsEdge, IsWithin};
ghost use Rattle.snap_prelude.specs.{Among, IsOf, to_do_at};

use crate::answer::Repaired;
use crate::ending::{end_repair, may_end};
use crate::held::look_at;
use crate::look::{Look, height_due, is_routing, lean, only_child};
use crate::tilting::{Leaning, tilt};
use snap_shape::{Edge, unlink_child};
use snap_steps::{Pass, Rows, pass_up, store_height};
use std::sync::Wait;

/// Does at a held row, whose key is the to-do key, what its words ask for: a routing row leaves its tree, a row that
/// leans is turned, and any other gets its right height. At a settled row beside which nothing is owed the repair ends.
pub fn settle<R: Wait>(
    rows: &Rows,
    rt: &R,
    pass: &mut Pass,
    edge: &Edge,
    epoch: u64,
) -> Option<Repaired>
    requires table { IsOf pass.old rows.now }
    requires mending { IsMending pass.old.view }
    requires epoch { Among epoch pass.old.view.words.present }
    requires rows { IsWithin rows.now.rows edge.now }
    requires edge { IsEdge pass.old.view edge.now }
    requires two { pass.old.view.holds ≡ edge.now.child.row ∷ edge.now.parent.row ∷ [] }
    requires to_do { pass.old.view.debt.to_do ≡ Some edge.now.child.key }
    ensures { TriesRepair rows.now.rows pass.old pass.new result }
{
    let row = edge.child;
    let look = look_at(rows, pass, &row);
    if is_routing(&look) {
        let only = only_child(&look);
        unlink_child(rows, pass, edge, only);
        return None;
    }
    if let Some(higher) = lean(&look) {
        let leaning = Leaning {
            edge: *edge,
            higher,
            epoch,
        };
        return tilt(rows, rt, pass, &leaning);
    }
    if may_end(pass, &row, &look) {
        end_repair(rows, pass, &row);
        return None;
    }
    lift(rows, pass, edge, &look);
    None
}

/// Gives a row that does not lean its right height: the to-do key goes up to its parent.
pub fn lift(rows: &Rows, pass: &mut Pass, edge: &Edge, look: &Look)
    requires table { IsOf pass.old rows.now }
    requires mending { IsMending pass.old.view }
    requires rows { IsWithin rows.now.rows edge.now }
    requires edge { IsEdge pass.old.view edge.now }
    requires to_do { pass.old.view.debt.to_do ≡ Some edge.now.child.key }
    requires look { HasLook rows.now.rows pass.old.view edge.now.child.row look.now }
    requires settles { IsEven look.now × (Routes look.now → ⊥) }
    ensures keeps { Lifts pass.old pass.new edge.now.parent edge.now.child }
    ensures to_do { pass.new.view.debt.to_do ≡ to_do_at edge.now.parent.row edge.now.parent.key }
{
    let (side, upper, lower) = (edge.side, edge.parent.row, edge.child.row);
    let (upper_key, lower_key) = (edge.parent.key, edge.child.key);
    set_right(rows, pass, edge, look);
    pass_up(rows, pass, upper, side, lower, lower_key, upper_key);
}

// Stores the right height of a held row, where it has another.
fn set_right(rows: &Rows, pass: &mut Pass, edge: &Edge, look: &Look)
    requires table { IsOf pass.old rows.now }
    requires mending { IsMending pass.old.view }
    requires rows { IsWithin rows.now.rows edge.now }
    requires edge { IsEdge pass.old.view edge.now }
    requires to_do { pass.old.view.debt.to_do ≡ Some edge.now.child.key }
    requires look { HasLook rows.now.rows pass.old.view edge.now.child.row look.now }
    ensures { SetsRight pass.old pass.new edge.now.child look.now }
{
    let (side, upper, lower, key) = (edge.side, edge.parent.row, edge.child.row, edge.child.key);
    let height = height_due(look);
    let stored = look.height;
    if stored == height {
        return;
    }
    store_height(rows, pass, upper, side, lower, key, height);
}

/// Stores the right height of a held row.
pub fn set_height(rows: &Rows, pass: &mut Pass, edge: &Edge)
    requires table { IsOf pass.old rows.now }
    requires mending { IsMending pass.old.view }
    requires rows { IsWithin rows.now.rows edge.now }
    requires edge { IsEdge pass.old.view edge.now }
    requires aims { RaisesFor pass.old.view edge.now.parent.row edge.now.child.row }
    ensures { Heightens pass.old pass.new edge.now.child }
{
    let (side, upper, lower, key) = (edge.side, edge.parent.row, edge.child.row, edge.child.key);
    let row = edge.child;
    let look = look_at(rows, pass, &row);
    let height = height_due(&look);
    store_height(rows, pass, upper, side, lower, key, height);
}
