//! A repair goes up by the way that its write kept, behind a rotation too: it comes to rows below a row with a mark, where
//! a search from row 0 would begin again for ever, and the test would run into its limit of time.
ghost use Rattle.std.specs.Prelude.{◌≤◌};
ghost use Rattle.snap_table.specs.Ready.{IsReadyTo};

use crate::asserts::is;
use crate::grips::take_top_turn;
use crate::stopped::{begin_write, end_by, free_top};
use crate::tables::open_with;
use snap_epoch::enter;
use snap_model::Call;
use snap_search::Way;
use snap_shape::{begin_turn, end_turn};
use snap_stamp::Key;
use snap_steps::{Pass, Rows};
use std::alloc::Global;
use std::process::Abort;
use std::sync::Wait;

// The seven keys, and 25 below 30, 5 and 15 below 10, 80 below 70, and 3 below 5.
const TWELVE: &str = "10~10|20~20|30~30|40~40|50~50|60~60|70~70|25~25|5~5|80~80|15~15|3~3";

// Puts the key and repairs. Meanwhile the other pass holds row 0, the root and its right child, and the root has the mark
// of a rotation.
fn repair_below<R: Abort + Wait>(rows: &Rows, rt: &R, pass: &mut Pass, other: &mut Pass, key: Key)
    requires pass { IsReadyTo rows.now 0 1000 pass.old }
    requires other { IsReadyTo rows.now 1 0 other.old }
    requires key { key ≤ 80 }
{
    let mut way = Way::none();
    let call = Call::Put { key, value: key };
    is(rt, begin_write(rows, rt, pass, &call, &mut way), None);
    enter(rows, rt, other);
    let turn = take_top_turn(rows, rt, other).expect(rt, "no rotation");
    let key = turn.row.key;
    let middle = begin_turn(rows, other, &turn, key);
    end_by(rows, rt, pass, &mut way, true);
    end_turn(rows, other, &turn, middle);
    free_top(rows, rt, other, &turn);
}

fn put_below<R: Abort + Wait>(rt: &R, alloc: Global, key: Key)
    requires { key ≤ 80 }
{
    let (rows, mut p, mut q) = open_with(rt, alloc, 13, TWELVE);
    repair_below(&rows, rt, &mut p, &mut q, key);
}

// 35 goes below 30, which has 25 on its other side: the repair ends at 30.
#[test]
fn a_repair_goes_up_by_the_way_of_its_write(rt: HostRuntime) {
    put_below(&rt, rt.alloc(), 35);
}

// 2 goes below 3, and 5 goes down below 3: the repair comes to 5 there, then to 3, and ends at 10.
#[test]
fn a_rotation_leaves_the_way(rt: HostRuntime) {
    put_below(&rt, rt.alloc(), 2);
}
