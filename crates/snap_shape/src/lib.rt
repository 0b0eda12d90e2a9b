//! Changes of a tree's shape by which its map stays: a routing row is unlinked, and a row is lowered below its child.
//!
//! Each is a change of several steps, which is whole again when the call returns. Every row that it touches is held.
#![tactic(auto)]

ghost use Rattle.std.specs.Prelude.{◌≡◌, ◌≢◌, ◌≤◌, ◌<◌, ℕ};
ghost use Rattle.snap_prelude.specs.{AimsNear, Among, Becomes, count_of, IsOf, IsRouting, Known};
ghost use Rattle.snap_prelude.specs.{last_count, Left, link_field, Nothing, read, Right};
ghost use Rattle.snap_shape.specs.Grips.{AreWithin, HasGrip, IsEdge, IsWithin, Leads, turn_below};
ghost use Rattle.snap_shape.specs.Shapes.{HasBegunTurn, MayRotate, Rotates, Unlinks, later};

mod grip;

pub use grip::{Edge, Grip, Turn, turn_of};
use snap_stamp::{Key, RowNo, Side};
use snap_steps::{
    Pass, Rows, clear_shrinking, link_lowered, link_parent, link_raised, load_word, mark_shrinking,
    mark_unlinked, splice,
};

/// Takes a held row without a value and with one child at most out of its tree: the parent leads to that child or none.
pub fn unlink_child(rows: &Rows, pass: &mut Pass, edge: &Edge, only: RowNo)
    requires table { IsOf pass.old rows.now }
    requires rows { IsWithin rows.now.rows edge.now }
    requires edge { IsEdge pass.old.view edge.now }
    requires routing { IsRouting pass.old.view edge.now.child.row only }
    requires aims { AimsNear pass.old.view edge.now.parent.row edge.now.child.row }
    requires whole { pass.old.view.doing ≡ Nothing }
    ensures { Unlinks pass.old pass.new edge.now only }
{
    let (side, upper, upper_key) = (edge.side, edge.parent.row, edge.parent.key);
    let (row, stamp) = (edge.child.row, edge.child.stamp);
    mark_unlinked(rows, pass, upper, side, row, only, stamp, upper_key);
    splice(rows, pass, upper, side, row, only);
}

/// Lowers a held row below its child, which takes its place. `key` is the to-do key meanwhile: the row's, or the raised
/// row's where it is that already. Answers the row with its next stamp.
pub fn rotate(rows: &Rows, pass: &mut Pass, turn: &Turn, key: Key) -> Grip
    requires { MayRotate rows.now pass.old turn.now key }
    ensures row { result ≡ later turn.now.row }
    ensures turned { Rotates pass.old pass.new turn.now }
{
    let Grip {
        row,
        key: row_key,
        stamp,
    } = turn.row;
    let middle = begin_turn(rows, pass, turn, key);
    end_turn(rows, pass, turn, middle);
    Grip {
        row,
        key: row_key,
        stamp: stamp + 4,
    }
}

/// The first part of a rotation: the row that is to go down has the shrinking mark then. `key` is the to-do key from
/// then on, as in `rotate`. Answers the link across of the row that is to come up.
pub fn begin_turn(rows: &Rows, pass: &mut Pass, turn: &Turn, key: Key) -> RowNo
    requires { MayRotate rows.now pass.old turn.now key }
    ensures table { IsOf pass.new rows.now }
    ensures begun { HasBegunTurn pass.old pass.new turn.now key result }
{
    let (parent_side, side, across) = (turn.parent_side, turn.side, turn.side.other());
    let (upper, lower, upward) = (turn.parent.row, turn.row.row, turn.raised.row);
    let stamp = turn.row.stamp;
    let raised = turn.raised;
    let middle = child_of(rows, pass, &raised, across);
    mark_shrinking(
        rows,
        pass,
        upper,
        parent_side,
        lower,
        side,
        upward,
        stamp,
        key,
    );
    middle
}

/// The second part: the three links are stored, and the mark goes. What it leaves is told since the rotation was begun.
pub fn end_turn(rows: &Rows, pass: &mut Pass, turn: &Turn, middle: RowNo)
    requires table { IsOf pass.old rows.now }
    requires rows { AreWithin rows.now.rows turn.now }
    requires count { count_of turn.now.row.stamp < last_count }
    requires begun { (old : Known) × (key : ℕ) × HasBegunTurn old pass.old turn.now key middle }
    ensures { (old : Known) → (key : ℕ) → HasBegunTurn old pass.old turn.now key middle
        → Rotates old pass.new turn.now }
{
    let (parent_side, side) = (turn.parent_side, turn.side);
    let (upper, lower, upward) = (turn.parent.row, turn.row.row, turn.raised.row);
    let (row_key, stamp) = (turn.row.key, turn.row.stamp);
    link_lowered(rows, pass, upper, parent_side, lower, side, upward, middle);
    link_raised(rows, pass, upper, parent_side, lower, side, upward);
    link_parent(rows, pass, upper, parent_side, lower, side, upward, row_key);
    clear_shrinking(rows, pass, lower, stamp + 2);
}

/// Lowers a held row below its left child.
pub fn rotate_right(rows: &Rows, pass: &mut Pass, edge: &Edge, raised: &Grip, key: Key) -> Grip
    requires { MayRotate rows.now pass.old (turn_below edge.now Left raised.now) key }
    ensures row { result ≡ later edge.now.child }
    ensures turned { Rotates pass.old pass.new (turn_below edge.now Left raised.now) }
{
    let turn = turn_of(edge, Side::Left, raised);
    rotate(rows, pass, &turn, key)
}

/// Lowers a held row below its right child.
pub fn rotate_left(rows: &Rows, pass: &mut Pass, edge: &Edge, raised: &Grip, key: Key) -> Grip
    requires { MayRotate rows.now pass.old (turn_below edge.now Right raised.now) key }
    ensures row { result ≡ later edge.now.child }
    ensures turned { Rotates pass.old pass.new (turn_below edge.now Right raised.now) }
{
    let turn = turn_of(edge, Side::Right, raised);
    rotate(rows, pass, &turn, key)
}

/// The child of a held row, 0 for none. Row 0 has one on its right alone.
pub fn child_of(rows: &Rows, pass: &mut Pass, parent: &Grip, side: Side) -> RowNo
    requires table { IsOf pass.old rows.now }
    requires row { parent.now.row ≤ rows.now.rows }
    requires grip { HasGrip pass.old.view parent.now }
    requires on_right { parent.now.row ≡ 0 → side ≡ Right }
    ensures pass { Becomes pass.old pass.new
        (read pass.old.view parent.now.row (link_field side) result) }
    ensures low { result ≤ rows.now.rows }
    ensures leads { Leads pass.new.view parent.now.row side result }
    ensures reached { result ≢ 0 → Among result pass.new.view.trail.reached }
{
    let word = load_word(rows, pass, parent.row, side.link());
    rows.row_of(word)
}
