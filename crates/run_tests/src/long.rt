//! Long scripts.
use crate::asserts::{ended, holds, is_status, is_text, shelf_of};
use snap_io::{FreeTurn, MemSink, ShelfOp};
use snap_model::OutOfMemory;
use std::alloc::{AllocError, Global};
use std::process::Abort;
use std::sync::Wait;
use std::thread::Threads;

// A clone, then a thousand writes, and exports of the clone.
fn cloned_script(alloc: Global) -> Result<String, AllocError> {
    let mut script = String::from_str(alloc, "put 1 10\nput 2 20\nput 3 30\nclone c\n")?;
    for key in 1..1001u32 {
        script.push_str(format!(in alloc; "put {key} 9\n")?.as_str())?;
    }
    script.push_str("export c 1 2 e.csv\nexport c 9 3 e\ncount c 9 3\ncount c 2 2\n")?;
    Ok(script)
}

fn exports_as_it_was<R: Threads + Wait + Sync + Abort>(rt: &R, alloc: Global) {
    let script = cloned_script(alloc).expect(rt, "no memory");
    let mut shelf = shelf_of(alloc, script.as_bytes(), b"", b"").expect(rt, "no memory");
    let mut sink = MemSink::new(alloc);
    is_status(
        rt,
        ended(rt, alloc, "a;", &mut shelf, &mut sink, &FreeTurn),
        0,
    );
    is_text(
        rt,
        shelf.content("e.csv").unwrap_or(b"none"),
        b"key,value\n1,10\n2,20\n",
    );
    is_text(rt, shelf.content("e").unwrap_or(b"none"), b"key,value\n");
    holds(
        rt,
        shelf
            .content("a.out")
            .unwrap_or(b"none")
            .ends_with(b"\nexported 2\nexported 0\ncount 0\ncount 1\n"),
    );
}

#[test]
fn a_clone_is_exported_as_it_was(rt: HostRuntime) {
    exports_as_it_was(&rt, rt.alloc());
}

fn lines_of(alloc: Global, count: usize) -> Result<Vec<u8>, OutOfMemory> {
    let mut lines = Vec::new(alloc);
    for _ in 0..count {
        lines.extend_from_slice(b"get 1\n")?;
    }
    Ok(lines)
}

fn ends_so<R: Threads + Wait + Sync + Abort>(
    rt: &R,
    alloc: Global,
    script: &[u8],
    read_fails: bool,
    status: u8,
    printed: &[u8],
) {
    let mut shelf = shelf_of(alloc, script, b"", b"").expect(rt, "no memory");
    if read_fails {
        shelf.fail(ShelfOp::Read, 1).expect(rt, "no memory");
    }
    let mut sink = MemSink::new(alloc);
    is_status(
        rt,
        ended(rt, alloc, "a;", &mut shelf, &mut sink, &FreeTurn),
        status,
    );
    is_text(rt, sink.bytes(), printed);
}

#[test]
fn the_longest_script(rt: HostRuntime) {
    ends_so(
        &rt,
        rt.alloc(),
        &lines_of(rt.alloc(), 100_000).expect(&rt, "no memory"),
        false,
        0,
        b"scripts 1 commands 100000 full 0\ntable main writes 0 pairs 0\n",
    );
    ends_so(
        &rt,
        rt.alloc(),
        &lines_of(rt.alloc(), 100_001).expect(&rt, "no memory"),
        false,
        3,
        b"script a: too long\n",
    );
}

// What is longer than a script may be isn't read at all.
#[test]
fn a_script_too_long_is_not_read(rt: HostRuntime) {
    ends_so(
        &rt,
        rt.alloc(),
        &lines_of(rt.alloc(), 699_051).expect(&rt, "no memory"),
        true,
        3,
        b"script a: too long\n",
    );
}

fn sink_fails<R: Threads + Wait + Sync + Abort>(rt: &R, alloc: Global) {
    let mut shelf = shelf_of(alloc, b"put 5 50\nget 5\n", b"", b"").expect(rt, "no memory");
    let mut sink = MemSink::new(alloc);
    sink.fail(1).expect(rt, "no memory");
    sink.fail(2).expect(rt, "no memory");
    is_status(
        rt,
        ended(rt, alloc, "a;", &mut shelf, &mut sink, &FreeTurn),
        5,
    );
    is_text(
        rt,
        shelf.content("a.out").unwrap_or(b"none"),
        b"new\nvalue 50\n",
    );
    is_status(
        rt,
        ended(rt, alloc, "c;", &mut shelf, &mut sink, &FreeTurn),
        4,
    );
    holds(rt, sink.bytes().is_empty());
}

#[test]
fn a_sink_that_fails_leaves_the_status(rt: HostRuntime) {
    sink_fails(&rt, rt.alloc());
}
