//! A write that stops in the midst of a rotation or of an unlinking, and the reads that then come by.
ghost use Rattle.std.specs.Prelude.{◌≡◌, ◌<◌, ◌≤◌, ◌^◌, [], false, true};
ghost use Rattle.snap_prelude.specs.{IsOf, Nothing};
ghost use Rattle.row_tests.specs.Stopping.{HoldsRoot, HoldsTop, HoldsTurn, IsUnlinkable, IsWritingPass};
ghost use Rattle.snap_search.specs.Prelude.{IsWay};
ghost use Rattle.snap_shape.specs.Grips.{IsEdge, IsWithin};
ghost use Rattle.snap_shape.specs.Shapes.{MayRotate, Rotates, Unlinks};
ghost use Rattle.snap_table.specs.{Calls.IsIdle, Ready.IsReadyTo};
ghost use Rattle.snap_update.specs.Answers.{FitsWord};

use crate::asserts::{holds, is};
use crate::grips::{take_root, take_routing, take_top_turn, take_turn};
use crate::reads::reads_find;
use crate::tables::{SEVEN, open_with, put_all};
use crate::waits::{comes_free, comes_held};
use snap_epoch::{enter, leave};
use snap_locks::unlock;
use snap_model::Call;
use snap_repair::repair;
use snap_search::Way;
use snap_shape::{Edge, Turn, begin_turn, end_turn, rotate};
use snap_stamp::{Key, RowNo};
use snap_steps::{
    Full, Pass, Rows, clear_shrinking, link_lowered, link_parent, link_raised, mark_unlinked,
    splice,
};
use snap_table::make_call;
use snap_update::write;
use std::alloc::Global;
use std::process::Abort;
use std::sync::Wait;
use std::thread;
use std::thread::Threads;

const BELOW_IS_BUSY: &str =
    "5~none|10~10|20~20|30~30|35~none|40~40|50~7 of 8|60~7 of 8|65~7 of 8|70~7 of 8|75~7 of 8";

const LOWERED_IS_BUSY: &str =
    "5~none|10~10|20~20|30~30|35~none|40~40|50~7 of 8|60~7 of 8|65~7 of 8|70~70|75~none";

const ALL_ANSWER: &str = "5~none|10~10|20~20|30~30|35~none|40~40|50~50|60~60|65~none|70~70|75~none";

const UNLINKED_IS_BUSY: &str =
    "5~none|10~10|20~20|30~7 of 8|35~7 of 8|40~40|50~50|60~60|65~none|70~70|75~none";

const REMOVED_IS_NONE: &str =
    "5~none|10~10|20~20|30~none|35~none|40~40|50~50|60~60|65~none|70~70|75~none";

// A rotation, with reads before it, where its rows are held, and after each of its five steps.
fn rotate_slowly<R: Abort + Wait>(
    rows: &Rows,
    rt: &R,
    pass: &mut Pass,
    reader: &mut Pass,
    turn: &Turn,
)
    requires reader { IsOf reader.old rows.now }
    requires rotates { MayRotate rows.now pass.old turn.now turn.now.row.key }
    ensures reader { IsOf reader.new rows.now }
    ensures turned { Rotates pass.old pass.new turn.now }
{
    let (parent_side, side) = (turn.parent_side, turn.side);
    let (upper, lower, upward) = (turn.parent.row, turn.row.row, turn.raised.row);
    let (key, stamp) = (turn.row.key, turn.row.stamp);
    reads_find(rows, rt, reader, ALL_ANSWER);
    let middle = begin_turn(rows, pass, turn, key);
    reads_find(rows, rt, reader, BELOW_IS_BUSY);
    link_lowered(rows, pass, upper, parent_side, lower, side, upward, middle);
    reads_find(rows, rt, reader, BELOW_IS_BUSY);
    link_raised(rows, pass, upper, parent_side, lower, side, upward);
    reads_find(rows, rt, reader, BELOW_IS_BUSY);
    link_parent(rows, pass, upper, parent_side, lower, side, upward, key);
    reads_find(rows, rt, reader, LOWERED_IS_BUSY);
    clear_shrinking(rows, pass, lower, stamp + 2);
    reads_find(rows, rt, reader, ALL_ANSWER);
}

// Repairs, and ends a write that holds no row. `made`: it made its entry.
fn end_write<R: Wait>(rows: &Rows, rt: &R, pass: &mut Pass, made: bool)
    requires writing { IsWritingPass rows.now pass.old made }
    requires free { pass.old.view.holds ≡ [] }
{
    let mut way = Way::none();
    end_by(rows, rt, pass, &mut way, made);
}

// The same, by a way that was kept.
pub(crate) fn end_by<R: Wait>(rows: &Rows, rt: &R, pass: &mut Pass, way: &mut Way, made: bool)
    requires writing { IsWritingPass rows.now pass.old made }
    requires free { pass.old.view.holds ≡ [] }
    requires way { IsWay rows.now.rows pass.old.view way.old }
{
    let _ = repair(rows, rt, pass, way);
    leave(rows, pass, made);
}

// Frees three rows and row 0, the middle one first, which comes free, and ends the write.
fn free_and_end<R: Wait + Abort>(
    rows: &Rows,
    rt: &R,
    pass: &mut Pass,
    reader: &mut Pass,
    turn: &Turn,
    made: bool,
)
    requires turn { HoldsTurn rows.now pass.old made turn.now }
    requires reader { IsOf reader.old rows.now }
    ensures { IsOf reader.new rows.now }
{
    let middle = turn.row.row;
    unlock(rows, pass, middle);
    holds(rt, comes_free(rows, reader, middle));
    unlock(rows, pass, turn.raised.row);
    unlock(rows, pass, turn.parent.row);
    unlock(rows, pass, RowNo::HOLDER);
    end_write(rows, rt, pass, made);
}

// Frees the root and row 0, and ends the write.
fn free_root<R: Wait>(rows: &Rows, rt: &R, pass: &mut Pass, root: RowNo, made: bool)
    requires { HoldsRoot rows.now pass.old made root }
{
    unlock(rows, pass, root);
    unlock(rows, pass, RowNo::HOLDER);
    end_write(rows, rt, pass, made);
}

// Frees the two rows of a rotation at the root and row 0, and ends a write that made no entry.
pub(crate) fn free_top<R: Wait>(rows: &Rows, rt: &R, pass: &mut Pass, turn: &Turn)
    requires { HoldsTop rows.now pass.old false turn.now.row.row turn.now.raised.row }
{
    unlock(rows, pass, turn.raised.row);
    free_root(rows, rt, pass, turn.row.row, false);
}

// An unlinking of a row without children, and what reads find after each of its two steps.
fn unlink_slowly<R: Abort + Wait>(
    rows: &Rows,
    rt: &R,
    pass: &mut Pass,
    reader: &mut Pass,
    edge: &Edge,
    marked: &str,
    spliced: &str,
)
    requires table { IsOf pass.old rows.now }
    requires reader { IsOf reader.old rows.now }
    requires rows { IsWithin rows.now.rows edge.now }
    requires edge { IsEdge pass.old.view edge.now }
    requires gone { IsUnlinkable pass.old.view edge.now.child.row }
    requires whole { pass.old.view.doing ≡ Nothing }
    ensures reader { IsOf reader.new rows.now }
    ensures unlinked { Unlinks pass.old pass.new edge.now 0 }
{
    let (side, upper, upper_key) = (edge.side, edge.parent.row, edge.parent.key);
    let (row, stamp) = (edge.child.row, edge.child.stamp);
    let none = RowNo::HOLDER;
    mark_unlinked(rows, pass, upper, side, row, none, stamp, upper_key);
    reads_find(rows, rt, reader, marked);
    splice(rows, pass, upper, side, row, none);
    reads_find(rows, rt, reader, spliced);
}

fn stop_in_rotation<R: Abort + Wait>(rows: &Rows, rt: &R, pass: &mut Pass, reader: &mut Pass)
    requires pass { IsReadyTo rows.now 0 1000 pass.old }
    requires reader { IsOf reader.old rows.now }
{
    enter(rows, rt, pass);
    let turn = take_turn(rows, rt, pass, reader, 70).expect(rt, "no rotation");
    rotate_slowly(rows, rt, pass, reader, &turn);
    free_and_end(rows, rt, pass, reader, &turn, false);
    reads_find(rows, rt, reader, ALL_ANSWER);
}

// Turns rows of which another write has yet to repair one, which waits for the row above meanwhile.
fn turn_beside<R: Abort + Wait>(rows: &Rows, rt: &R, pass: &mut Pass, reader: &mut Pass)
    requires pass { IsReadyTo rows.now 0 1000 pass.old }
    requires reader { IsOf reader.old rows.now }
{
    enter(rows, rt, pass);
    let turn = take_turn(rows, rt, pass, reader, 80).expect(rt, "no rotation");
    let key = turn.row.key;
    let _ = rotate(rows, pass, &turn, key);
    free_and_end(rows, rt, pass, reader, &turn, false);
}

// Puts 80 once the row of 60, which was the sixth to be drawn, is held.
fn put_eighty<R: Abort + Wait>(
    rows: &Rows,
    rt: &R,
    pass: &mut Pass,
    reader: &mut Pass,
) -> Result<Option<u64>, Full>
    requires rows { 6 ≤ rows.now.rows }
    requires pass { IsReadyTo rows.now 1 0 pass.old }
    requires reader { IsOf reader.old rows.now }
{
    holds(rt, comes_held(rows, reader, RowNo::of(6)));
    make_call(rows, rt, pass, &Call::Put { key: 80, value: 80 })
}

// Begins a write and removes the key.
fn remove<R: Abort + Wait>(rows: &Rows, rt: &R, pass: &mut Pass, key: Key) -> Option<u64>
    requires table { IsOf pass.old rows.now }
    requires idle { IsIdle pass.old.view }
    requires uses { pass.old.view.uses < 2 ^ 48 }
    ensures writing { IsWritingPass rows.now pass.new true }
    ensures free { pass.new.view.holds ≡ [] }
{
    let mut way = Way::none();
    begin_write(rows, rt, pass, &Call::Remove { key }, &mut way)
}

// Begins a write and makes its entry. It holds no row then, and has yet to repair.
pub(crate) fn begin_write<R: Abort + Wait>(
    rows: &Rows,
    rt: &R,
    pass: &mut Pass,
    call: &Call,
    way: &mut Way,
) -> Option<u64>
    requires table { IsOf pass.old rows.now }
    requires idle { IsIdle pass.old.view }
    requires uses { pass.old.view.uses < 2 ^ 48 }
    requires value { FitsWord call.now }
    ensures writing { IsWritingPass rows.now pass.new true }
    ensures free { pass.new.view.holds ≡ [] }
    ensures way { IsWay rows.now.rows pass.new.view way.new }
{
    enter(rows, rt, pass);
    write(rows, rt, pass, call, way).expect(rt, "no row is left")
}

fn stop_in_unlinking<R: Abort + Wait>(rows: &Rows, rt: &R, pass: &mut Pass, reader: &mut Pass)
    requires pass { IsReadyTo rows.now 0 1000 pass.old }
    requires reader { IsOf reader.old rows.now }
{
    is(rt, remove(rows, rt, pass, 30), Some(30));
    reads_find(rows, rt, reader, REMOVED_IS_NONE);
    let turn = take_routing(rows, rt, pass).expect(rt, "no unlinking");
    let edge = Edge {
        parent: turn.row,
        side: turn.side,
        child: turn.raised,
    };
    unlink_slowly(
        rows,
        rt,
        pass,
        reader,
        &edge,
        UNLINKED_IS_BUSY,
        REMOVED_IS_NONE,
    );
    free_and_end(rows, rt, pass, reader, &turn, true);
    reads_find(rows, rt, reader, REMOVED_IS_NONE);
}

// The same of the root, which is the one row of its tree and has the key 1.
fn stop_at_root<R: Abort + Wait>(rows: &Rows, rt: &R, pass: &mut Pass, reader: &mut Pass)
    requires pass { IsReadyTo rows.now 0 1000 pass.old }
    requires reader { IsOf reader.old rows.now }
{
    is(rt, remove(rows, rt, pass, 1), Some(5));
    let edge = take_root(rows, rt, pass).expect(rt, "no unlinking");
    unlink_slowly(rows, rt, pass, reader, &edge, "1~1 of 2", "1~none");
    free_root(rows, rt, pass, edge.child.row, true);
    reads_find(rows, rt, reader, "1~none");
}

// A rotation at the root, by which row 1 goes down below row 2, with a read of the key 2 after the first of five steps.
fn rotate_root<R: Abort + Wait>(
    rows: &Rows,
    rt: &R,
    pass: &mut Pass,
    reader: &mut Pass,
    turn: &Turn,
)
    requires reader { IsOf reader.old rows.now }
    requires rotates { MayRotate rows.now pass.old turn.now turn.now.row.key }
    ensures reader { IsOf reader.new rows.now }
    ensures turned { Rotates pass.old pass.new turn.now }
{
    let key = turn.row.key;
    let middle = begin_turn(rows, pass, turn, key);
    reads_find(rows, rt, reader, "2~2 of 3");
    end_turn(rows, pass, turn, middle);
}

// The row that is to go down is row 1, and row 2 comes up.
fn turns_both<R: Abort>(rt: &R, turn: &Turn) {
    let (lower, upward) = (turn.row.row, turn.raised.row);
    is(rt, (lower.number(), upward.number()), (1, 2));
}

fn stop_in_rotation_at_root<R: Abort + Wait>(
    rows: &Rows,
    rt: &R,
    pass: &mut Pass,
    reader: &mut Pass,
)
    requires pass { IsReadyTo rows.now 0 1000 pass.old }
    requires reader { IsOf reader.old rows.now }
{
    enter(rows, rt, pass);
    let turn = take_top_turn(rows, rt, pass).expect(rt, "no rotation");
    turns_both(rt, &turn);
    reads_find(rows, rt, reader, "2~20");
    rotate_root(rows, rt, pass, reader, &turn);
    free_top(rows, rt, pass, &turn);
    reads_find(rows, rt, reader, "2~20|1~10");
}

#[test]
fn reads_meet_a_stopped_rotation(rt: HostRuntime) {
    let (rows, mut p, mut q) = open_with(&rt, rt.alloc(), 7, SEVEN);
    stop_in_rotation(&rows, &rt, &mut p, &mut q);
}

// A table of eight rows, and its four passes.
fn open_for_four<R: Abort>(rt: &R, alloc: Global) -> (Rows, Pass, Pass, Pass, Pass)
    ensures rows { result.0.rows ≡ 8 }
    ensures first { IsReadyTo result.0 0 0 result.1 }
    ensures second { IsReadyTo result.0 1 0 result.2 }
    ensures readers { IsOf result.3 result.0 × IsOf result.4 result.0 }
{
    let (rows, mut passes) = Rows::open(alloc, 8, 4).expect(rt, "no memory");
    let fourth = passes.pop().expect(rt, "no fourth pass");
    let third = passes.pop().expect(rt, "no third pass");
    let second = passes.pop().expect(rt, "no second pass");
    let first = passes.pop().expect(rt, "no first pass");
    (rows, first, second, third, fourth)
}

// The first pass turns, with the third as its reader, and the second puts, with the fourth as its
// own. What the put answers.
fn turn_and_put<R: Abort + Threads + Wait + Sync>(
    rows: &Rows,
    rt: &R,
    p: &mut Pass,
    q: &mut Pass,
    r: &mut Pass,
    s: &mut Pass,
) -> Result<Option<u64>, Full>
    requires rows { 6 ≤ rows.now.rows }
    requires p { IsReadyTo rows.now 0 1000 p.old }
    requires q { IsReadyTo rows.now 1 0 q.old }
    requires readers { IsOf r.old rows.now × IsOf s.old rows.now }
{
    let (_, reply) = thread::join(
        rt,
        || turn_beside(rows, rt, p, r),
        || put_eighty(rows, rt, q, s),
    );
    reply
}

// The put of 80 unsettles 70, and waits then for 60, which the other write holds until 70 stands above it. It must not
// keep 60 while it waits for 70: the other write waits for 60 to come free before it frees 70.
#[test]
fn a_repair_keeps_no_row_that_has_lost_its_child(rt: HostRuntime) {
    let (rows, mut p, mut q, mut r, mut s) = open_for_four(&rt, rt.alloc());
    put_all(&rows, &rt, &mut p, SEVEN);
    let reply = turn_and_put(&rows, &rt, &mut p, &mut q, &mut r, &mut s);
    is(&rt, reply, Ok(None));
}

#[test]
fn reads_meet_a_stopped_unlinking(rt: HostRuntime) {
    let (rows, mut p, mut q) = open_with(&rt, rt.alloc(), 7, SEVEN);
    stop_in_unlinking(&rows, &rt, &mut p, &mut q);
}

#[test]
fn reads_meet_a_stopped_unlinking_of_the_root(rt: HostRuntime) {
    let (rows, mut p, mut q) = open_with(&rt, rt.alloc(), 1, "1~5");
    stop_at_root(&rows, &rt, &mut p, &mut q);
}

#[test]
fn a_read_meets_a_stopped_rotation_at_the_root(rt: HostRuntime) {
    let (rows, mut p, mut q) = open_with(&rt, rt.alloc(), 4, "1~10|2~20");
    stop_in_rotation_at_root(&rows, &rt, &mut p, &mut q);
}
