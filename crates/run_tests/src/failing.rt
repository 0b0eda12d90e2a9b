//! Two scripts and a final file, where one of the calls to the outside fails, or two. A row is a call, the status and how
//! often a read and a write have failed, what is printed, and the files `a.out`, `b.out` and `f`; the rows stand in the
//! order in which their calls are made. Where two calls fail, the earlier one is told, and the later one isn't made. Of the
//! two workers that write at one time, the second ends once the first one's replies have come to their file.
use crate::asking::{FlagShelf, FlagTurn, LOOKS};
use crate::asserts::{holds, is, is_text, words_in};
use crossbeam_utils::atomic::AtomicCell;
use snap_io::{MemShelf, MemSink, ShelfOp};
use snap_model::OutOfMemory;
use snap_run::{Outcome, run};
use std::alloc::{AllocError, Global};
use std::process::Abort;
use std::sync::Wait;
use std::thread::Threads;

const ROWS: &[u8] = b"\
    s1~4 1,0~read fault: a\n~none~none~none|\
    r1~4 1,0~read fault: a\n~none~none~none|\
    s2~4 1,0~read fault: b\n~none~none~none|\
    r2~4 1,0~read fault: b\n~none~none~none|\
    c1~5 0,1~write fault: a.out\n~none~none~none|\
    c2~5 0,1~write fault: b.out\n~~none~none|\
    a1~5 0,1~write fault: a.out\n~~~none|\
    a2~5 0,1~write fault: b.out\n~new\nnew\nold 10\n~~none|\
    c3~5 0,1~write fault: f\n~new\nnew\nold 10\n~new\nnew\n~none|\
    a3~5 0,1~write fault: f\n~new\nnew\nold 10\n~new\nnew\n~|\
    p1~5 0,0~~new\nnew\nold 10\n~new\nnew\n~key,value\n2,20\n3,30\n4,40\n";

// A part of a row.
fn part(row: &[u8], place: usize) -> &[u8] {
    row.split(|byte| *byte == b'~')
        .nth(place)
        .unwrap_or(b"no such part")
}

// The shelf and the sink of a run.
#[derive(Drop)]
struct Outside<'f> {
    shelf: FlagShelf<'f>,
    sink: MemSink,
}

fn outside_of(alloc: Global, asked: &AtomicCell<bool>) -> Result<Outside<'_>, OutOfMemory> {
    let mut shelf = MemShelf::new(alloc);
    shelf.add("a", b"put 1 10\nput 3 30\nremove 1\n")?;
    shelf.add("b", b"put 2 20\nput 4 40\n")?;
    Ok(Outside {
        shelf: FlagShelf { held: shelf, asked },
        sink: MemSink::new(alloc),
    })
}

// Has a call fail: `s1` the first size, `p1` the first text that is put to the sink.
fn plan(outside: &mut Outside<'_>, call: &[u8]) -> Result<(), OutOfMemory> {
    let [kind, number] = call else {
        return Ok(());
    };
    let number = u64::from(number.saturating_sub(b'0'));
    match *kind {
        b's' => outside.shelf.held.fail(ShelfOp::Size, number),
        b'r' => outside.shelf.held.fail(ShelfOp::Read, number),
        b'c' => outside.shelf.held.fail(ShelfOp::Create, number),
        b'a' => outside.shelf.held.fail(ShelfOp::Append, number),
        _ => outside.sink.fail(number),
    }
}

// Whether the fronts are those of five writes, of which three pairs are left; a run that is stopped has none.
fn has_fronts(outcome: &Outcome) -> bool {
    match outcome.fronts.list() {
        [] => outcome.status == 4,
        [front] => outcome.status != 4 && front.writes == 5 && front.pairs == 3,
        _ => false,
    }
}

// How often the second worker looks for the first one's replies: not at all where no file is added to, or in any order.
fn looks_of(call: &[u8]) -> u64 {
    match call {
        b"a1" | b"a2" => LOOKS,
        _ => 0,
    }
}

// The status, and how often a read and a write have failed.
fn end_of<R: Threads + Wait + Sync + Abort>(
    rt: &R,
    alloc: Global,
    outside: &mut Outside<'_>,
    looks: u64,
) -> Result<String, AllocError> {
    let words = words_in(alloc, "--rows=99;a;b;--final;f;")?;
    let Outside { shelf, sink } = outside;
    let turn = FlagTurn::new(shelf.asked, 1, 2, looks);
    let outcome = run(rt, alloc, words.as_slice(), shelf, sink, &turn);
    holds(rt, has_fronts(&outcome));
    let status = outcome.status;
    let (reading, writing) = shelf.held.faults();
    format!(in alloc; "{status} {reading},{writing}")
}

fn has<R: Abort>(rt: &R, shelf: &MemShelf, name: &str, want: &[u8]) {
    is_text(rt, shelf.content(name).unwrap_or(b"none"), want);
}

// What is printed: nothing where the put of the text fails too.
fn printed_with<'r>(row: &'r [u8], later: &[u8]) -> &'r [u8] {
    match later {
        [b'p', _] => b"",
        _ => part(row, 2),
    }
}

// Has the call of a row fail, and a later one.
fn check<R: Threads + Wait + Sync + Abort>(rt: &R, alloc: Global, row: &[u8], later: &[u8]) {
    let asked = AtomicCell::new(false);
    let mut outside = outside_of(alloc, &asked).expect(rt, "no memory");
    plan(&mut outside, part(row, 0)).expect(rt, "no memory");
    plan(&mut outside, later).expect(rt, "no memory");
    let end = end_of(rt, alloc, &mut outside, looks_of(part(row, 0))).expect(rt, "no memory");
    is_text(rt, end.as_bytes(), part(row, 1));
    let printed = printed_with(row, later);
    is_text(rt, outside.sink.bytes(), printed);
    has(rt, &outside.shelf.held, "a.out", part(row, 3));
    has(rt, &outside.shelf.held, "b.out", part(row, 4));
    has(rt, &outside.shelf.held, "f", part(row, 5));
}

#[test]
fn each_call_fails(rt: HostRuntime) {
    let mut count = 0usize;
    for row in ROWS.split(|byte| *byte == b'|') {
        check(&rt, rt.alloc(), row, b"");
        count = count.saturating_add(1);
    }
    is(&rt, count, 11);
}

// Has the call of a row fail with each call behind it.
fn check_behind<R: Threads + Wait + Sync + Abort>(
    rt: &R,
    alloc: Global,
    row: &[u8],
    place: usize,
) -> usize {
    let mut count = 0usize;
    for later in ROWS
        .split(|byte| *byte == b'|')
        .skip(place.saturating_add(1))
    {
        check(rt, alloc, row, part(later, 0));
        count = count.saturating_add(1);
    }
    count
}

#[test]
fn of_two_calls_the_earlier_is_told(rt: HostRuntime) {
    let mut count = 0usize;
    for (place, row) in ROWS.split(|byte| *byte == b'|').enumerate() {
        count = count.saturating_add(check_behind(&rt, rt.alloc(), row, place));
    }
    is(&rt, count, 55);
}
