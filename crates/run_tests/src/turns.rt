//! The turn is called before each command, with the worker's number and the command's.
use crate::asserts::{ended, holds, is_status, is_text, shelf_of};
use crossbeam_utils::atomic::AtomicCell;
use snap_io::{MemSink, Turn};
use std::alloc::Global;
use std::hint;
use std::process::Abort;
use std::sync::Wait;
use std::thread::Threads;

/// How often a worker may look for another.
const LOOKS: u64 = 1_000_000_000;

/// Counts the calls of two workers, of which each is to have the number behind the last one. The first worker goes on to
/// its first command once the second has come to its own, and the second once the first has come to its third.
#[derive(Drop)]
struct CountingTurn {
    first: AtomicCell<u64>,
    second: AtomicCell<u64>,
    in_order: AtomicCell<bool>,
    meets: bool,
}

impl CountingTurn {
    fn new(meets: bool) -> CountingTurn {
        CountingTurn {
            first: AtomicCell::new(0),
            second: AtomicCell::new(0),
            in_order: AtomicCell::new(true),
            meets,
        }
    }

    // Counts a call of a worker, which no other thread counts.
    fn count(&self, calls: &AtomicCell<u64>, number: u64) {
        if calls.load().saturating_add(1) != number {
            self.in_order.store(false);
        }
        calls.store(number);
    }

    // Looks until a worker has come to a command.
    fn await_command(&self, calls: &AtomicCell<u64>, number: u64) {
        for _ in 0..LOOKS {
            if calls.load() >= number {
                return;
            }
            hint::spin_loop();
        }
    }

    // Whether the workers were called before so many commands, in their order.
    fn counted(&self, first: u64, second: u64) -> bool {
        self.in_order.load() && self.first.load() == first && self.second.load() == second
    }
}

impl Turn for CountingTurn {
    fn before(&self, worker: u32, number: u64) {
        match worker {
            0 => self.count(&self.first, number),
            1 => self.count(&self.second, number),
            _ => self.in_order.store(false),
        }
        match (self.meets, worker, number) {
            (true, 0, 1) => self.await_command(&self.second, 1),
            (true, 1, 1) => self.await_command(&self.first, 3),
            _ => {}
        }
    }
}

fn each_command_of_one<R: Threads + Wait + Sync + Abort>(rt: &R, alloc: Global) {
    let script = b"put 1 1\n# a line without a command\n\nget 1\nclone c\nsee c 1\n";
    let mut shelf = shelf_of(alloc, script, b"", b"").expect(rt, "no memory");
    let mut sink = MemSink::new(alloc);
    let turn = CountingTurn::new(false);
    is_status(rt, ended(rt, alloc, "a;", &mut shelf, &mut sink, &turn), 0);
    holds(rt, turn.counted(4, 0));
}

#[test]
fn before_each_command_of_one_script(rt: HostRuntime) {
    each_command_of_one(&rt, rt.alloc());
}

// Where the turn is called after a command, the second script gets the key before the first has put it.
fn each_command_of_two<R: Threads + Wait + Sync + Abort>(rt: &R, alloc: Global) {
    let mut shelf = shelf_of(alloc, b"get 9\nput 1 7\nget 1\n", b"get 1\nget 2\n", b"").expect(
        rt,
        "no memory",
    );
    let mut sink = MemSink::new(alloc);
    let turn = CountingTurn::new(true);
    is_status(
        rt,
        ended(rt, alloc, "a;b;", &mut shelf, &mut sink, &turn),
        0,
    );
    holds(rt, turn.counted(3, 2));
    is_text(
        rt,
        shelf.content("b.out").unwrap_or(b"none"),
        b"value 7\nnone\n",
    );
}

#[test]
fn before_each_command_of_two_scripts(rt: HostRuntime) {
    each_command_of_two(&rt, rt.alloc());
}
