//! A lock that one pass holds and another wants.
ghost use Rattle.snap_table.specs.Ready.{IsReadyTo};

use crate::asserts::{holds, is};
use crate::tables::open_for_two;
use snap_locks::{lock, unlock};
use snap_stamp::{Field, RowNo};
use snap_steps::{Pass, Rows, load_word, try_enter, try_lock};
use std::process::Abort;
use std::sync::Wait;

fn refuse_held<R: Abort + Wait>(rows: &Rows, rt: &R, p: &mut Pass, q: &mut Pass)
    requires p { IsReadyTo rows.now 0 0 p.old }
    requires q { IsReadyTo rows.now 1 0 q.old }
{
    try_enter(rows, p, 0).expect(rt, "p does not enter");
    try_enter(rows, q, 2).expect(rt, "q does not enter");
    lock(rows, rt, p, RowNo::HOLDER);
    is(rt, load_word(rows, q, RowNo::HOLDER, Field::Lock), 1);
    holds(rt, !try_lock(rows, q, RowNo::HOLDER));
    unlock(rows, p, RowNo::HOLDER);
    lock(rows, rt, q, RowNo::HOLDER);
    is(rt, load_word(rows, p, RowNo::HOLDER, Field::Lock), 2);
    unlock(rows, q, RowNo::HOLDER);
    is(rt, load_word(rows, p, RowNo::HOLDER, Field::Lock), 0);
}

#[test]
fn a_held_row_is_refused(rt: HostRuntime) {
    let (rows, mut p, mut q) = open_for_two(&rt, rt.alloc(), 1);
    refuse_held(&rows, &rt, &mut p, &mut q);
}
