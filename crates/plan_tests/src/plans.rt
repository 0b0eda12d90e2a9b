use crate::asserts::{is, is_text_at, words_in};
use snap_io::{MemShelf, Shelf};
use snap_model::OutOfMemory;
use snap_plan::{Plan, Stop, accept};
use std::alloc::{AllocError, Global};
use std::process::Abort;

// Files, each a name, `:` and its text, in which `/` stands for the line's end; `;` ends each.
fn shelf_with(alloc: Global, files: &str) -> Result<MemShelf, OutOfMemory> {
    let mut shelf = MemShelf::new(alloc);
    for file in files.split_inclusive(';') {
        add_file(alloc, &mut shelf, file.strip_suffix(';').unwrap_or(file))?;
    }
    Ok(shelf)
}

fn add_file(alloc: Global, shelf: &mut MemShelf, file: &str) -> Result<(), OutOfMemory> {
    let (name, text) = file.split_once(':').unwrap_or((file, ""));
    let bytes = bytes_of(alloc, text)?;
    shelf.add(name, bytes.as_slice())
}

fn bytes_of(alloc: Global, text: &str) -> Result<Vec<u8>, AllocError> {
    let mut bytes = Vec::new(alloc);
    for byte in text.as_bytes() {
        bytes.push(if *byte == b'/' { b'\n' } else { *byte })?;
    }
    Ok(bytes)
}

// The rows, the lines of each script, and the names of tables and load files.
fn shown_plan(alloc: Global, plan: &Plan) -> Result<String, OutOfMemory> {
    let rows = plan.rows;
    let mut text = format!(in alloc; "{rows}")?;
    for script in plan.scripts.list() {
        let count = script.lines().len();
        let shown = format!(in alloc; " {count}")?;
        text.push_str(shown.as_str())?;
    }
    for table in plan.tables.list() {
        text.push_str(" ")?;
        text.push_str(table.text())?;
    }
    Ok(text)
}

// What words and a shelf lead to: a plan, or the status and the text of a stop.
pub(crate) fn shown<S: Shelf>(
    alloc: Global,
    words: &str,
    shelf: &mut S,
) -> Result<String, OutOfMemory> {
    let list = words_in(alloc, words)?;
    match accept(alloc, list.as_slice(), shelf) {
        Ok(plan) => shown_plan(alloc, &plan),
        Err(stop) => shown_stop(alloc, &stop),
    }
}

fn shown_stop(alloc: Global, stop: &Stop) -> Result<String, OutOfMemory> {
    let status = stop.status();
    let mut shown = format!(in alloc; "{status} ")?;
    let text = stop.text(alloc)?;
    shown.push_str(text.as_str().trim_end())?;
    Ok(shown)
}

fn shown_with(alloc: Global, words: &str, files: &str) -> Result<String, OutOfMemory> {
    let mut shelf = shelf_with(alloc, files)?;
    shown(alloc, words, &mut shelf)
}

// Checks cases, between which `|` stands, each words, files, and what is shown of the plan or the stop.
fn hold<R: Abort>(rt: &R, alloc: Global, cases: &str) -> usize {
    let mut count = 0usize;
    for case in cases.split('|') {
        let (words, rest) = case.split_once('~').unwrap_or((case, ""));
        let (files, want) = rest.split_once('~').unwrap_or((rest, "no want"));
        let found = shown_with(alloc, words, files).expect(rt, "no memory");
        is_text_at(rt, found.as_str(), want, case);
        count = count.saturating_add(1);
    }
    count
}

#[test]
fn plans(rt: HostRuntime) {
    let count = hold(
        &rt,
        rt.alloc(),
        "\
        a;~a:;~65536 0 main|\
        a;b;--final=f;--rows;9;~a:put 1 10/put 3 30/remove 1/;b:put 2 20/use t/;~9 3 2 main t|\
        a;b;~a:use t/use u/;b:use u/use main/use s/;~65536 2 3 main t u s|\
        a;~a:load l/;l:key,value/3,30/;~65536 1 main|\
        --generate=5;--workers=2;--seed=7;~~65536 3 2 main|\
        --rows=1;a;~a:get 1/;~1 1 main|\
        a;--rows;1048576;~a:get 1/;~1048576 1 main|\
        a0;a1;a2;a3;a4;a5;a6;a7;a8;a9;b0;b1;b2;b3;b4;b5;b6;b7;b8;b9;c0;c1;c2;c3;c4;c5;c6;c7;c8;c9;d0;d1;~a0:;a1:;a2:;a3:;a4:;a5:;a6:;a7:;a8:;a9:;b0:;b1:;b2:;b3:;b4:;b5:;b6:;b7:;b8:;b9:;c0:;c1:;c2:;c3:;c4:;c5:;c6:;c7:;c8:;c9:;d0:;d1:;~65536 0 0 0 0 0 0 0 0 0 0 0 0 0 0 0 0 0 0 0 0 0 0 0 0 0 0 0 0 0 0 0 0 main",
    );
    is(&rt, count, 8);
}

#[test]
fn stops(rt: HostRuntime) {
    let count = hold(
        &rt,
        rt.alloc(),
        "\
        ~~2 words refused: choice|\
        --rows=0;a;~a:;~2 words refused: number|\
        --rows=1048577;a;~a:;~2 words refused: number|\
        a0;a1;a2;a3;a4;a5;a6;a7;a8;a9;b0;b1;b2;b3;b4;b5;b6;b7;b8;b9;c0;c1;c2;c3;c4;c5;c6;c7;c8;c9;d0;d1;d2;~~2 words refused: choice|\
        a;a;~~2 words refused: output|\
        a;~a:put 1 18446744073709551615/;~3 script a line 1: BadNumber|\
        a;b;~a:put 1 10/;~4 read fault: b|\
        a;b;c;~a:put 1 10/;b:put/;~4 read fault: c|\
        a;b;c;~b:put/;c:put/;~4 read fault: a|\
        a;b;c;~a:get 1/;b:put/;c:pat/;~3 script b line 1: WordCount|\
        a;b;~a:clone c/export c 0 9 b.out/;b:put/;~3 script b line 1: WordCount|\
        a;b;~a:clone c/export c 0 9 b.out/;b:;~3 script a line 2: OutputTaken|\
        a;b;~a:;b:clone c/export c 0 9 a.out/;~3 script b line 2: OutputTaken|\
        a;b;--final=f;~a:clone c/export c 0 9 f/;b:put/;~3 script b line 1: WordCount|\
        a;b;--final=f;~a:;b:clone c/export c 0 9 f/;~3 script b line 2: OutputTaken|\
        a;b;~a:clone c/export c 0 9 e/;b:clone c/export c 0 9 e/;~3 script b line 2: OutputTaken|\
        a;b;~a:use t1/use t2/use t3/use t4/;b:use t5/use t1/use t6/use t7/use t8/;~3 script b line 5: TooManyTables|\
        a;~a:load l1/load l2/load l3/load l4/load l5/load l6/load l7/load l8/load l9/;~3 script a line 9: TooManyLoads|\
        a;b;~a:load l/;b:load m/;m:key/;~4 read fault: l|\
        a;b;~a:load l/;b:load m/;m:key/;l:key,value/3/;~3 load l record 2: BadPair",
    );
    is(&rt, count, 20);
}
