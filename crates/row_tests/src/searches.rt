//! Searches in a table without keys.
ghost use Rattle.std.specs.Prelude.{◌≡◌, Bool};
ghost use Rattle.snap_prelude.specs.{IsOf, Writing};
ghost use Rattle.snap_table.specs.Ready.{IsReadyTo};

use crate::asserts::{holds, is};
use crate::tables::open_for_one;
use snap_search::{Found, Place, Spot, Way, find_for_write, find_to_repair, get, try_get};
use snap_stamp::{RowNo, Side, Stamp};
use snap_steps::{Pass, Rows, try_enter};
use std::process::Abort;
use std::sync::Wait;

// A write finds its place on the right of row 0.
fn write_finds_top<R: Abort + Wait>(rows: &Rows, rt: &R, pass: &mut Pass, way: &mut Way)
    requires table { IsOf pass.old rows.now }
    requires writing { (made : Bool) × (counted : Bool)
        × (pass.old.view.stage ≡ Writing made counted) }
    ensures table { IsOf pass.new rows.now }
    ensures writing { pass.new.view.stage ≡ pass.old.view.stage }
{
    let Found { place, epoch } = find_for_write(rows, rt, pass, 7, way);
    is(rt, epoch, 0);
    let Place::Below { at } = place else {
        return holds(rt, false);
    };
    let Spot { row, stamp, side } = at;
    is(rt, row, RowNo::HOLDER);
    is(rt, stamp, Stamp::of(0));
    is(rt, side, Side::Right);
}

// A repair ends there, and keeps no row above it.
fn repair_finds_top<R: Abort + Wait>(rows: &Rows, rt: &R, pass: &mut Pass, way: &mut Way)
    requires table { IsOf pass.old rows.now }
    requires writing { (made : Bool) × (counted : Bool)
        × (pass.old.view.stage ≡ Writing made counted) }
{
    let end = find_to_repair(rows, rt, pass, 7, way);
    is(rt, end.row, RowNo::HOLDER);
    is(rt, end.side, Side::Right);
    holds(rt, !end.here);
    holds(rt, way.go_up().is_none());
}

fn find_no_key<R: Abort + Wait>(rows: &Rows, rt: &R, pass: &mut Pass)
    requires { IsReadyTo rows.now 0 0 pass.old }
{
    is(rt, get(rows, rt, pass, 7), None);
    is(rt, try_get(rows, pass, 7), Ok(None));
    try_enter(rows, pass, 0).expect(rt, "the pass does not enter");
    let mut way = Way::none();
    write_finds_top(rows, rt, pass, &mut way);
    repair_finds_top(rows, rt, pass, &mut way);
}

#[test]
fn an_empty_table_has_no_key(rt: HostRuntime) {
    let (rows, mut pass) = open_for_one(&rt, rt.alloc(), 1);
    find_no_key(&rows, &rt, &mut pass);
}
