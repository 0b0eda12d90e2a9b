//! One write in a table of one row. Writes that end need repairs: the tests of tables have those.
ghost use Rattle.snap_table.specs.Ready.{IsReadyTo};

use crate::asserts::is;
use crate::tables::open_for_one;
use snap_model::Call;
use snap_search::{Way, get};
use snap_steps::{Pass, Rows, try_enter};
use snap_update::write;
use std::process::Abort;
use std::sync::Wait;

fn put_is_read<R: Abort + Wait>(rows: &Rows, rt: &R, pass: &mut Pass)
    requires { IsReadyTo rows.now 0 0 pass.old }
{
    try_enter(rows, pass, 0).expect(rt, "the pass does not enter");
    let call = Call::Put { key: 7, value: 70 };
    let mut way = Way::none();
    is(rt, write(rows, rt, pass, &call, &mut way), Ok(None));
    is(rt, get(rows, rt, pass, 7), Some(70));
}

#[test]
fn a_put_is_read(rt: HostRuntime) {
    let (rows, mut pass) = open_for_one(&rt, rt.alloc(), 1);
    put_is_read(&rows, &rt, &mut pass);
}
