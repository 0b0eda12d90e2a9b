//! The gate, by two passes in turn, and by three threads at once.
ghost use Rattle.std.specs.Prelude.{◌≡◌};
ghost use Rattle.snap_table.specs.Ready.{IsReadyTo};

use crate::asserts::{holds, is};
use crate::tables::open_for_two;
use snap_epoch::{close, enter, leave, reopen};
use snap_steps::{Pass, Rows, admit, close_rows, draw, finish, load_gate, load_left, try_close};
use std::alloc::Global;
use std::process::Abort;
use std::sync::Wait;
use std::thread;
use std::thread::Threads;

fn counts<R: Abort + Wait>(rows: &Rows, rt: &R, p: &mut Pass, q: &mut Pass)
    requires p { IsReadyTo rows.now 0 0 p.old }
    requires q { IsReadyTo rows.now 1 0 q.old }
{
    enter(rows, rt, p);
    is(rt, load_gate(rows, q), 2);
    holds(rt, try_close(rows, q, 0) == Err(2));
    leave(rows, p, false);
    close(rows, rt, q);
    is(rt, load_gate(rows, p), 3);
    is(rt, load_left(rows, p), 1);
    reopen(rows, q);
    is(rt, load_gate(rows, p), 2);
    is(rt, p.uses(), 1);
    is(rt, q.uses(), 1);
}

#[test]
fn gate_counts(rt: HostRuntime) {
    let (rows, mut p, mut q) = open_for_two(&rt, rt.alloc(), 1);
    counts(&rows, &rt, &mut p, &mut q);
}

// Draws, enters, leaves, closes and opens again, so many times.
fn take_turns<R: Wait>(rows: &Rows, rt: &R, mut pass: Pass, who: u32) -> Pass
    requires { IsReadyTo rows.now who 0 pass }
    ensures { IsReadyTo rows.now who 200 result }
{
    for turn in 0..100u64 {
        let _turn = turn;
        let _ = draw(rows, rt, &mut pass);
        enter(rows, rt, &mut pass);
        leave(rows, &mut pass, false);
        close(rows, rt, &mut pass);
        reopen(rows, &mut pass);
    }
    pass
}

fn take_turns_by_two<R: Threads + Wait + Sync>(
    rows: &Rows,
    rt: &R,
    a: Pass,
    b: Pass,
) -> (Pass, Pass)
    requires { IsReadyTo rows.now 0 0 a × IsReadyTo rows.now 1 0 b }
    ensures { IsReadyTo rows.now 0 200 result.0 × IsReadyTo rows.now 1 200 result.1 }
{
    thread::join(
        rt,
        || take_turns(rows, rt, a, 0),
        || take_turns(rows, rt, b, 1),
    )
}

fn take_turns_by_three<R: Threads + Wait + Sync>(
    rows: &Rows,
    rt: &R,
    a: Pass,
    b: Pass,
    c: Pass,
) -> ((Pass, Pass), Pass)
    requires two { IsReadyTo rows.now 0 0 a × IsReadyTo rows.now 1 0 b }
    requires third { IsReadyTo rows.now 2 0 c }
    ensures two { IsReadyTo rows.now 0 200 result.0.0 × IsReadyTo rows.now 1 200 result.0.1 }
    ensures third { IsReadyTo rows.now 2 200 result.1 }
{
    thread::join(
        rt,
        || -> (Pass, Pass)
            requires { IsReadyTo rows.now 0 0 a × IsReadyTo rows.now 1 0 b }
            ensures { IsReadyTo rows.entry.now 0 200 result.0
                × IsReadyTo rows.entry.now 1 200 result.1 }
        { take_turns_by_two(rows, rt, a, b) },
        || take_turns(rows, rt, c, 2),
    )
}

// A table of 250 rows, and its three passes.
fn open_for_three<R: Abort>(rt: &R, alloc: Global) -> (Rows, Pass, Pass, Pass)
    ensures rows { result.0.passes ≡ 3 }
    ensures two { IsReadyTo result.0 0 0 result.1 × IsReadyTo result.0 1 0 result.2 }
    ensures third { IsReadyTo result.0 2 0 result.3 }
{
    let (rows, mut passes) = Rows::open(alloc, 250, 3).expect(rt, "no memory");
    let third = passes.pop().expect(rt, "no third pass");
    let second = passes.pop().expect(rt, "no second pass");
    let first = passes.pop().expect(rt, "no first pass");
    (rows, first, second, third)
}

// Closes the table, and answers how many rows were drawn.
fn close_by_first(rows: Rows, mut first: Pass, second: Pass, third: Pass) -> u32
    requires rows { rows.passes ≡ 3 }
    requires two { IsReadyTo rows 0 200 first × IsReadyTo rows 1 200 second }
    requires third { IsReadyTo rows 2 200 third }
{
    let receipt = finish(&rows, second);
    admit(&rows, &mut first, receipt);
    let receipt = finish(&rows, third);
    admit(&rows, &mut first, receipt);
    close_rows(rows, first).drawn
}

#[test]
fn threads_take_turns(rt: HostRuntime) {
    let (rows, a, b, c) = open_for_three(&rt, rt.alloc());
    let ((mut a, b), c) = take_turns_by_three(&rows, &rt, a, b, c);
    is(&rt, a.uses() + b.uses() + c.uses(), 600);
    is(&rt, load_gate(&rows, &mut a), 600);
    is(&rt, load_left(&rows, &mut a), 300);
    is(&rt, close_by_first(rows, a, b, c), 250);
}
