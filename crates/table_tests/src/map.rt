//! Puts, removals and reads by one thread in turns, and by several at once.
ghost use Rattle.std.specs.Prelude.{◌<◌};
ghost use Rattle.snap_table.specs.Ready.{IsReadyTo};

use crate::asserts::is;
use snap_table::{Full, Pass, SnapTable};
use std::process::Abort;
use std::sync::Wait;
use std::test::Fail;
use std::thread;

#[test]
fn a_note_carries_a_put(rt: HostRuntime) -> Result<(), Fail> {
    let (table, mut passes) = SnapTable::open(rt.alloc(), 4, 2)?;
    let mut q = passes.pop().expect(&rt, "no second pass");
    let mut p = passes.pop().expect(&rt, "no first pass");
    is(&rt, table.put(&rt, &mut p, 7, 70), Ok(None));
    let note = table.note(&mut p);
    table.learn(&mut q, note);
    is(&rt, table.get(&rt, &mut q, 7), Some(70));
    is(&rt, table.get(&rt, &mut q, 8), None);
    is(&rt, table.drawn_rows(&mut q), 1);
    Ok(())
}

#[test]
fn a_read_at_once_answers(rt: HostRuntime) -> Result<(), Fail> {
    let (table, mut passes) = SnapTable::open(rt.alloc(), 2, 1)?;
    let mut p = passes.pop().expect(&rt, "no pass");
    is(&rt, table.put(&rt, &mut p, 5, 50), Ok(None));
    is(&rt, table.put(&rt, &mut p, 3, 30), Ok(None));
    is(&rt, table.try_get(&mut p, 3), Ok(Some(30)));
    is(&rt, table.try_get(&mut p, 5), Ok(Some(50)));
    is(&rt, table.try_get(&mut p, u64::MAX), Ok(None));
    Ok(())
}

/// A put of a pass that has had fewer uses than a million.
pub(crate) fn put<R: Wait + Abort>(
    table: &SnapTable,
    rt: &R,
    pass: &mut Pass,
    who: u32,
    key: u64,
    value: u64,
) -> Result<Option<u64>, Full>
    requires ready { IsReadyTo table.now who 1000000 pass.old }
    requires value { value < 1000000 }
    ensures { IsReadyTo table.now who 1000000 pass.new }
{
    let _who = who;
    assert!(rt; pass.uses() < 1_000_000);
    table.put(rt, pass, key, value)
}

/// A removal of such a pass.
pub(crate) fn remove<R: Wait + Abort>(
    table: &SnapTable,
    rt: &R,
    pass: &mut Pass,
    who: u32,
    key: u64,
) -> Result<Option<u64>, Full>
    requires ready { IsReadyTo table.now who 1000000 pass.old }
    ensures { IsReadyTo table.now who 1000000 pass.new }
{
    let _who = who;
    assert!(rt; pass.uses() < 1_000_000);
    table.remove(rt, pass, key)
}

#[test]
fn rows_run_out(rt: HostRuntime) -> Result<(), Fail> {
    let (table, mut passes) = SnapTable::open(rt.alloc(), 2, 1)?;
    let mut p = passes.pop().expect(&rt, "no pass");
    is(&rt, put(&table, &rt, &mut p, 0, 1, 10), Ok(None));
    is(&rt, put(&table, &rt, &mut p, 0, 2, 20), Ok(None));
    is(
        &rt,
        put(&table, &rt, &mut p, 0, 3, 30),
        Err(Full { rows: 2 }),
    );
    is(&rt, remove(&table, &rt, &mut p, 0, 9), Ok(None));
    let front = table.close(p);
    is(&rt, front.writes, 3);
    is(&rt, front.pairs, 2);
    is(&rt, front.drawn, 2);
    Ok(())
}

#[test]
fn replies_are_the_values_before(rt: HostRuntime) -> Result<(), Fail> {
    let (table, mut passes) = SnapTable::open(rt.alloc(), 2, 1)?;
    let mut p = passes.pop().expect(&rt, "no pass");
    is(&rt, put(&table, &rt, &mut p, 0, 5, 50), Ok(None));
    is(&rt, put(&table, &rt, &mut p, 0, 5, 51), Ok(Some(50)));
    is(&rt, remove(&table, &rt, &mut p, 0, 5), Ok(Some(51)));
    is(&rt, remove(&table, &rt, &mut p, 0, 5), Ok(None));
    let front = table.close(p);
    is(&rt, front.writes, 4);
    is(&rt, front.pairs, 0);
    Ok(())
}

#[test]
fn a_row_that_was_given_up_is_not_drawn_again(rt: HostRuntime) -> Result<(), Fail> {
    let (table, mut passes) = SnapTable::open(rt.alloc(), 2, 1)?;
    let mut p = passes.pop().expect(&rt, "no pass");
    is(&rt, table.put(&rt, &mut p, 5, 50), Ok(None));
    is(&rt, table.remove(&rt, &mut p, 5), Ok(Some(50)));
    is(&rt, table.put(&rt, &mut p, 5, 52), Ok(None));
    let front = table.close(p);
    is(&rt, front.drawn, 2);
    is(&rt, front.pairs, 1);
    Ok(())
}

// Puts of 100 values at keys that the threads share, and how many of them found none.
pub(crate) fn put_all<R: Wait>(table: &SnapTable, rt: &R, mut pass: Pass, who: u32) -> (Pass, u64)
    requires { IsReadyTo table.now who 0 pass }
    ensures { IsReadyTo table.now who 100 result.0 }
{
    let mut fresh = 0u64;
    for turn in 0..100u64 {
        let key = turn * 7 % 20;
        if table.put(rt, &mut pass, key, turn) == Ok(None) {
            fresh = fresh.saturating_add(1);
        }
    }
    (pass, fresh)
}

#[test]
fn threads_meet_at_keys(rt: HostRuntime) -> Result<(), Fail> {
    let (table, mut passes) = SnapTable::open(rt.alloc(), 100, 3)?;
    let c = passes.pop().expect(&rt, "no third pass");
    let b = passes.pop().expect(&rt, "no second pass");
    let a = passes.pop().expect(&rt, "no first pass");
    let (((mut a, of_a), (b, of_b)), (c, of_c)) = thread::join(
        &rt,
        || -> ((Pass, u64), (Pass, u64))
            requires { IsReadyTo table 0 0 a × IsReadyTo table 1 0 b }
            ensures { IsReadyTo table 0 100 result.0.0 × IsReadyTo table 1 100 result.1.0 }
        {
            thread::join(
                &rt,
                || put_all(&table, &rt, a, 0),
                || put_all(&table, &rt, b, 1),
            )
        },
        || put_all(&table, &rt, c, 2),
    );
    is(&rt, of_a.wrapping_add(of_b).wrapping_add(of_c), 20);
    let receipt = table.finish(b);
    table.admit(&mut a, receipt);
    let receipt = table.finish(c);
    table.admit(&mut a, receipt);
    let front = table.close(a);
    is(&rt, front.writes, 300);
    is(&rt, front.pairs, 20);
    is(&rt, front.drawn, 20);
    Ok(())
}
