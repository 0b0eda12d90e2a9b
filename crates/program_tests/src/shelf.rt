ghost use Rattle.std.specs.Prelude.{◌≤◌};

use crate::asserts::{holds, is, is_at, is_text, is_text_at};
use snap_io::{DiskShelf, Failed, MemShelf, Shelf, ShelfOp};
use std::alloc::Global;
use std::fs;
use std::fs::Files;
use std::process::Abort;

const OPS: [ShelfOp; 4] = [
    ShelfOp::Size,
    ShelfOp::Read,
    ShelfOp::Create,
    ShelfOp::Append,
];

/// Whether a call of this kind succeeds. What is appended is "+".
fn succeeds<S: Shelf>(shelf: &mut S, op: ShelfOp, name: &str) -> bool {
    match op {
        ShelfOp::Size => shelf.size(name).is_ok(),
        ShelfOp::Read => shelf.read(name, 0, &mut [0]).is_ok(),
        ShelfOp::Create => shelf.create(name).is_ok(),
        ShelfOp::Append => shelf.append(name, b"+").is_ok(),
    }
}

fn has(shelf: &MemShelf, name: &str, bytes: &[u8]) -> bool {
    shelf.content(name).is_some_and(|found| found == bytes)
}

fn add<R: Abort>(rt: &R, shelf: &mut MemShelf, name: &str, bytes: &[u8]) {
    shelf.add(name, bytes).expect(rt, "no memory");
}

/// A shelf with the file "a".
fn shelf_with<R: Abort>(rt: &R, alloc: Global, bytes: &[u8]) -> MemShelf {
    let mut shelf = MemShelf::new(alloc);
    add(rt, &mut shelf, "a", bytes);
    shelf
}

/// A shelf with the file "a", whose call of this kind and number is planned to fail.
fn shelf_that_fails<R: Abort>(rt: &R, alloc: Global, op: ShelfOp, n: u64) -> MemShelf {
    let mut shelf = shelf_with(rt, alloc, b"old");
    shelf.fail(op, n).expect(rt, "no memory");
    shelf
}

/// Whether a call succeeds, and what the file holds then.
fn leaves<R: Abort>(rt: &R, shelf: &mut MemShelf, op: ShelfOp, done: bool, bytes: &[u8]) {
    is_at(rt, &op, succeeds(shelf, op, "a"), done);
    is_at(rt, &op, has(shelf, "a", bytes), true);
}

/// The second of three calls fails: what the file holds after each, and the counts then.
fn the_second_fails<R: Abort>(
    rt: &R,
    alloc: Global,
    op: ShelfOp,
    held: [&[u8]; 3],
    faults: (u64, u64),
) {
    let mut shelf = shelf_that_fails(rt, alloc, op, 2);
    leaves(rt, &mut shelf, op, true, held[0]);
    leaves(rt, &mut shelf, op, false, held[1]);
    leaves(rt, &mut shelf, op, true, held[2]);
    is(rt, shelf.faults(), faults);
}

#[test]
fn the_planned_call_of_a_kind_fails(rt: HostRuntime) {
    let same = [b"old".as_slice(), b"old", b"old"];
    let empty = [b"".as_slice(), b"", b""];
    let longer = [b"old+".as_slice(), b"old+", b"old++"];
    the_second_fails(&rt, rt.alloc(), ShelfOp::Size, same, (1, 0));
    the_second_fails(&rt, rt.alloc(), ShelfOp::Read, same, (1, 0));
    the_second_fails(&rt, rt.alloc(), ShelfOp::Create, empty, (0, 1));
    the_second_fails(&rt, rt.alloc(), ShelfOp::Append, longer, (0, 1));
}

fn fails_alone<R: Abort>(rt: &R, alloc: Global, planned: ShelfOp) {
    let mut shelf = shelf_that_fails(rt, alloc, planned, 1);
    for op in OPS {
        let found = succeeds(&mut shelf, op, "a");
        is_at(rt, &(op, planned), found, op != planned);
    }
}

#[test]
fn a_planned_failure_is_of_its_kind_alone(rt: HostRuntime) {
    for planned in OPS {
        fails_alone(&rt, rt.alloc(), planned);
    }
}

/// A call fails without a fault.
fn is_refused<R: Abort>(rt: &R, shelf: &mut MemShelf, op: ShelfOp) {
    is_at(rt, &op, succeeds(shelf, op, "b"), false);
    is_at(rt, &op, shelf.faults(), (0, 0));
}

#[test]
fn absent_names_are_refused_without_a_fault(rt: HostRuntime) {
    let mut shelf = shelf_with(&rt, rt.alloc(), b"old");
    is_refused(&rt, &mut shelf, ShelfOp::Size);
    is_refused(&rt, &mut shelf, ShelfOp::Read);
    is_refused(&rt, &mut shelf, ShelfOp::Append);
    holds(&rt, shelf.content("b").is_none());
    holds(&rt, has(&shelf, "a", b"old"));
}

#[test]
fn a_planned_failure_of_an_absent_name_is_a_fault(rt: HostRuntime) {
    let mut shelf = shelf_that_fails(&rt, rt.alloc(), ShelfOp::Size, 2);
    holds(&rt, !succeeds(&mut shelf, ShelfOp::Size, "b"));
    is(&rt, shelf.faults(), (0, 0));
    holds(&rt, !succeeds(&mut shelf, ShelfOp::Size, "b"));
    is(&rt, shelf.faults(), (1, 0));
}

/// A read at this place into so many of eight dots gives so many bytes, and leaves these.
fn reads<R: Abort>(rt: &R, shelf: &mut MemShelf, at: u64, fits: usize, count: usize, left: &[u8])
    requires { fits ≤ 8 }
{
    let mut into = [b'.'; 8];
    let found = shelf.read("a", at, &mut into[..fits]).ok();
    is_at(rt, &(at, fits), found, Some(count));
    is_text_at(rt, &(at, fits), &into, left);
}

#[test]
fn a_read_gives_what_is_there_and_fits(rt: HostRuntime) {
    let mut shelf = shelf_with(&rt, rt.alloc(), b"hello");
    reads(&rt, &mut shelf, 0, 5, 5, b"hello...");
    reads(&rt, &mut shelf, 0, 2, 2, b"he......");
    reads(&rt, &mut shelf, 2, 2, 2, b"ll......");
    reads(&rt, &mut shelf, 4, 2, 1, b"o.......");
    reads(&rt, &mut shelf, 1, 0, 0, b"........");
    reads(&rt, &mut shelf, 1, 8, 4, b"ello....");
}

#[test]
fn a_read_behind_the_end_gives_nothing(rt: HostRuntime) {
    let mut shelf = shelf_with(&rt, rt.alloc(), b"hello");
    reads(&rt, &mut shelf, 5, 2, 0, b"........");
    reads(&rt, &mut shelf, 6, 2, 0, b"........");
    reads(&rt, &mut shelf, u64::MAX, 2, 0, b"........");
    is(&rt, shelf.size("a").ok(), Some(5));
}

/// The size and the bytes of a file that was there with other bytes, and was written anew in two pieces.
fn written_anew<S: Shelf>(
    shelf: &mut S,
    name: &str,
    into: &mut [u8],
) -> Result<(u64, usize), Failed> {
    shelf.create(name)?;
    shelf.append(name, b"old and long")?;
    shelf.create(name)?;
    shelf.append(name, b"one ")?;
    shelf.append(name, b"two")?;
    let size = shelf.size(name)?;
    let count = shelf.read(name, 2, into)?;
    Ok((size, count))
}

fn is_written_anew<R: Abort, S: Shelf>(rt: &R, shelf: &mut S, name: &str) {
    let mut into = [b'.'; 8];
    is(rt, written_anew(shelf, name, &mut into).ok(), Some((7, 5)));
    is_text(rt, &into, b"e two...");
}

#[test]
fn a_file_is_written_anew(rt: HostRuntime) {
    let mut shelf = MemShelf::new(rt.alloc());
    add(&rt, &mut shelf, "b", b"other");
    add(&rt, &mut shelf, "b", b"more");
    is_written_anew(&rt, &mut shelf, "a");
    holds(&rt, has(&shelf, "a", b"one two"));
    holds(&rt, has(&shelf, "b", b"more"));
    is(&rt, shelf.faults(), (0, 0));
}

/// Writes a file of the system anew, and takes it away.
fn is_written_to_disk<R: Abort + Files>(rt: &R, shelf: &mut DiskShelf<'_, R>, name: &str) {
    is_written_anew(rt, shelf, name);
    is(rt, shelf.read(name, 7, &mut [b'.'; 8]).ok(), Some(0));
    fs::remove_file(rt, name).expect(rt, "the file is there");
}

#[test]
fn a_file_of_the_system_is_written_anew(rt: HostRuntime) {
    let name = "program_tests-written_anew.tmp";
    let mut shelf = DiskShelf::new(&rt);
    is_written_to_disk(&rt, &mut shelf, name);
    for op in [ShelfOp::Size, ShelfOp::Read, ShelfOp::Append] {
        holds(&rt, !succeeds(&mut shelf, op, name));
    }
    for op in OPS {
        holds(&rt, !succeeds(&mut shelf, op, "."));
    }
}
