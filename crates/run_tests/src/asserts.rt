use snap_io::{MemShelf, MemSink, Shelf, Turn};
use snap_model::OutOfMemory;
use snap_run::run;
use std::alloc::{AllocError, Global};
use std::process::Abort;
use std::sync::Wait;
use std::thread::Threads;

pub(crate) fn is<R: Abort>(rt: &R, found: usize, want: usize) {
    assert_eq!(rt; found, want);
}

pub(crate) fn is_status<R: Abort>(rt: &R, found: u8, want: u8) {
    assert_eq!(rt; found, want);
}

pub(crate) fn is_text<R: Abort>(rt: &R, found: &[u8], want: &[u8]) {
    assert_eq!(rt; found, want);
}

pub(crate) fn holds<R: Abort>(rt: &R, said: bool) {
    assert!(rt; said);
}

/// The words of a text, each ended by `;`.
pub(crate) fn words_in(alloc: Global, text: &str) -> Result<Vec<String>, AllocError> {
    let mut list = Vec::new(alloc);
    for word in text.split_inclusive(';') {
        list.push(String::from_str(alloc, word.strip_suffix(';').unwrap_or(word))?)?;
    }
    Ok(list)
}

/// Scripts `a` and `b`, and a load file `l`.
pub(crate) fn shelf_of(
    alloc: Global,
    a: &[u8],
    b: &[u8],
    l: &[u8],
) -> Result<MemShelf, OutOfMemory> {
    let mut shelf = MemShelf::new(alloc);
    shelf.add("a", a)?;
    shelf.add("b", b)?;
    shelf.add("l", l)?;
    Ok(shelf)
}

/// The status alone: what `run` ensures isn't read in each test.
pub(crate) fn ended<R: Threads + Wait + Sync + Abort, S: Shelf, T: Turn + Sync>(
    rt: &R,
    alloc: Global,
    words: &str,
    shelf: &mut S,
    sink: &mut MemSink,
    turn: &T,
) -> u8 {
    let words = words_in(alloc, words).expect(rt, "no memory");
    run(rt, alloc, words.as_slice(), shelf, sink, turn).status
}
