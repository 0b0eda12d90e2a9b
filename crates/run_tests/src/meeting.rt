//! Two scripts at one time.
use crate::asserts::{ended, holds, is_status, is_text, shelf_of};
use snap_io::{HoldTurn, MemSink};
use std::alloc::Global;
use std::process::Abort;
use std::sync::Wait;
use std::thread::Threads;

// A body that runs one script after the other, in either order, lets the two not meet.
fn runs_both_at_one_time<R: Threads + Wait + Sync + Abort>(rt: &R, alloc: Global) {
    let mut shelf = shelf_of(alloc, b"put 1 1\n", b"put 2 2\nget 2\n", b"").expect(rt, "no memory");
    let mut sink = MemSink::new(alloc);
    let turn = HoldTurn::new(1_000_000_000);
    is_status(
        rt,
        ended(rt, alloc, "a;b;", &mut shelf, &mut sink, &turn),
        0,
    );
    holds(rt, turn.met());
    is_text(rt, shelf.content("a.out").unwrap_or(b"none"), b"new\n");
    is_text(
        rt,
        shelf.content("b.out").unwrap_or(b"none"),
        b"new\nvalue 2\n",
    );
    is_text(
        rt,
        sink.bytes(),
        b"scripts 2 commands 3 full 0\ntable main writes 2 pairs 2\n",
    );
}

#[test]
fn two_scripts_meet(rt: HostRuntime) {
    runs_both_at_one_time(&rt, rt.alloc());
}
