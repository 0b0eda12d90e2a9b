use crate::asserts::{is, is_text};
use snap_io::{FreeTurn, MemSink, Sink, StdSink, Turn};
use std::alloc::Global;
use std::process::Abort;

/// Puts three pieces, of which this one is planned to fail, and compares which are done and what is held then.
fn fails<R: Abort>(
    rt: &R,
    alloc: Global,
    planned: u64,
    done: [bool; 3],
    bytes: &[u8],
    faults: u64,
) {
    let mut sink = MemSink::new(alloc);
    sink.fail(planned).expect(rt, "no memory");
    is(rt, sink.put(b"a").is_ok(), done[0]);
    is(rt, sink.put(b"b").is_ok(), done[1]);
    is(rt, sink.put(b"c").is_ok(), done[2]);
    is_text(rt, sink.bytes(), bytes);
    is(rt, sink.faults(), faults);
}

#[test]
fn the_planned_put_fails(rt: HostRuntime) {
    fails(&rt, rt.alloc(), 1, [false, true, true], b"bc", 1);
    fails(&rt, rt.alloc(), 2, [true, false, true], b"ac", 1);
    fails(&rt, rt.alloc(), 3, [true, true, false], b"ab", 1);
    fails(&rt, rt.alloc(), 4, [true, true, true], b"abc", 0);
}

#[test]
fn standard_output_and_turns_are_free(rt: HostRuntime) {
    is(&rt, StdSink::new(&rt).put(b"").is_ok(), true);
    FreeTurn.before(0, 1);
}
