//! Output is written while workers run.
use crate::asking::{FlagShelf, FlagTurn, LOOKS, StepTurn};
use crate::asserts::{ended, holds, is_status, is_text, shelf_of};
use crossbeam_utils::atomic::AtomicCell;
use snap_io::{MemSink, Turn};
use std::alloc::Global;
use std::process::Abort;
use std::sync::Wait;
use std::thread::Threads;

// The shelf behind a run of this script.
fn shelf_behind<'f, R: Threads + Wait + Sync + Abort, T: Turn + Sync>(
    rt: &R,
    alloc: Global,
    script: &[u8],
    asked: &'f AtomicCell<bool>,
    turn: &T,
) -> FlagShelf<'f> {
    let held = shelf_of(alloc, script, b"", b"").expect(rt, "no memory");
    let mut shelf = FlagShelf { held, asked };
    let mut sink = MemSink::new(alloc);
    is_status(rt, ended(rt, alloc, "a;", &mut shelf, &mut sink, turn), 0);
    shelf
}

fn has<R: Abort>(rt: &R, shelf: &FlagShelf<'_>, file: &str, text: &[u8]) {
    is_text(rt, shelf.held.content(file).unwrap_or(b"none"), text);
}

// The worker goes on to its last command once its export is written. A body that writes nothing before the workers have
// ended lets it look in vain.
fn writes_before_the_end<R: Threads + Wait + Sync + Abort>(rt: &R, alloc: Global) {
    let asked = AtomicCell::new(false);
    let turn = FlagTurn::new(&asked, 0, 3, LOOKS);
    let script = b"clone c\nexport c 0 9 e\nget 1\n";
    let shelf = shelf_behind(rt, alloc, script, &asked, &turn);
    holds(rt, turn.saw());
    has(rt, &shelf, "a.out", b"cloned c\nexported 0\nnone\n");
    has(rt, &shelf, "e", b"key,value\n");
}

// The same of each of two exports: a body that writes the first at once and the rest at the end lets the worker look in
// vain before its last command.
fn writes_each_before_the_end<R: Threads + Wait + Sync + Abort>(rt: &R, alloc: Global) {
    let asked = AtomicCell::new(false);
    let turn = StepTurn::new(&asked);
    let script = b"clone c\nexport c 0 9 e\nget 1\nexport c 0 9 g\nget 2\n";
    let shelf = shelf_behind(rt, alloc, script, &asked, &turn);
    holds(rt, turn.sights() == 2);
    has(
        rt,
        &shelf,
        "a.out",
        b"cloned c\nexported 0\nnone\nexported 0\nnone\n",
    );
    has(rt, &shelf, "e", b"key,value\n");
    has(rt, &shelf, "g", b"key,value\n");
}

#[test]
fn an_export_is_written_while_its_worker_runs(rt: HostRuntime) {
    writes_before_the_end(&rt, rt.alloc());
}

#[test]
fn each_export_is_written_while_its_worker_runs(rt: HostRuntime) {
    writes_each_before_the_end(&rt, rt.alloc());
}
