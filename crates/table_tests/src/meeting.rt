//! Two threads whose writes want each other's rows: both put rising keys in turns and remove those behind, so that each
//! turns rows which the other turns too. Every write ends.
ghost use Rattle.std.specs.Prelude.{◌<◌};
ghost use Rattle.snap_table.specs.Ready.{IsReadyTo};

use crate::asserts::is;
use crate::map::{put, remove};
use snap_table::{Pass, SnapTable};
use std::process::Abort;
use std::sync::Wait;
use std::test::Fail;
use std::thread;

// Puts each second key from the thread's number on, and removes the fourth before it. Answers how many of the writes
// found what the thread had left there.
fn put_and_remove<R: Wait + Abort>(
    table: &SnapTable,
    rt: &R,
    mut pass: Pass,
    who: u32,
) -> (Pass, u64)
    requires { IsReadyTo table.now who 0 pass }
    ensures { IsReadyTo table.now who 1000000 result.0 }
{
    let mut right = 0u64;
    for turn in 0..20_000u64 {
        let key = 2 * turn + who as u64;
        let fresh = put(table, rt, &mut pass, who, key, turn) == Ok(None);
        let gone = remove(table, rt, &mut pass, who, key.wrapping_sub(8));
        let was = turn.checked_sub(4);
        if fresh && gone == Ok(was) {
            right = right.saturating_add(1);
        }
    }
    (pass, right)
}

#[test]
fn writes_that_want_each_others_rows_end(rt: HostRuntime) -> Result<(), Fail> {
    let (table, mut passes) = SnapTable::open(rt.alloc(), 40_000, 2)?;
    let b = passes.pop().expect(&rt, "no second pass");
    let a = passes.pop().expect(&rt, "no first pass");
    let ((_, of_a), (_, of_b)) = thread::join(
        &rt,
        || put_and_remove(&table, &rt, a, 0),
        || put_and_remove(&table, &rt, b, 1),
    );
    is(&rt, of_a, 20_000);
    is(&rt, of_b, 20_000);
    Ok(())
}
