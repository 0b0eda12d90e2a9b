//! Repairs that end below a row which another pass holds. With a way up to row 0 each would wait for ever.
ghost use Rattle.snap_table.specs.Ready.{IsReadyTo};

use crate::reads::reads_find;
use crate::tables::{call_answers, open_with, put_all};
use snap_epoch::{enter, leave};
use snap_locks::{lock, unlock};
use snap_model::Call;
use snap_stamp::RowNo;
use snap_steps::{Pass, Rows};
use std::process::Abort;
use std::sync::Wait;

// 65 goes below 70, which has 80 on its other side: the repair ends at 70. 65 leaves the tree: it
// ends there again. 90 goes below 80: 70 leans and goes down below 80, and what is below 60 is as
// high as before. The repair ends at 60.
fn come_and_go<R: Abort + Wait>(rows: &Rows, rt: &R, pass: &mut Pass)
    requires { IsReadyTo rows.now 0 1000 pass.old }
{
    put_all(rows, rt, pass, "65~65");
    call_answers(rows, rt, pass, &Call::Remove { key: 65 }, Some(65));
    put_all(rows, rt, pass, "90~90");
}

// Three writes of a pass while another one holds row 0.
fn write_below<R: Abort + Wait>(rows: &Rows, rt: &R, holder: &mut Pass, pass: &mut Pass)
    requires holder { IsReadyTo rows.now 1 0 holder.old }
    requires pass { IsReadyTo rows.now 0 1000 pass.old }
{
    enter(rows, rt, holder);
    lock(rows, rt, holder, RowNo::HOLDER);
    come_and_go(rows, rt, pass);
    unlock(rows, holder, RowNo::HOLDER);
    leave(rows, holder, false);
    reads_find(rows, rt, holder, "65~none|70~70|90~90");
}

#[test]
fn a_repair_ends_below_a_held_row(rt: HostRuntime) {
    let (rows, mut p, mut q) = open_with(
        &rt,
        rt.alloc(),
        10,
        "10~10|20~20|30~30|40~40|50~50|60~60|70~70|80~80",
    );
    write_below(&rows, &rt, &mut q, &mut p);
}
