//! A case is its words, each ended by `;`, the scripts `a` and `b`, the load file `l`, the call of the shelf that is to
//! fail, the end, and the files `a.out`, `b.out` and `f`; `~` stands between these, and `|` between cases.
use crate::asserts::{ended, is, is_text, shelf_of};
use snap_io::{FreeTurn, MemShelf, MemSink, ShelfOp};
use std::alloc::{AllocError, Global};
use std::process::Abort;
use std::sync::Wait;
use std::thread::Threads;

// A part of a case.
fn part(case: &[u8], place: usize) -> &[u8] {
    case.split(|byte| *byte == b'~')
        .nth(place)
        .unwrap_or(b"no such part")
}

// Has a call of the shelf fail: `s1` the first size, `a2` the second append.
fn plan<R: Abort>(rt: &R, shelf: &mut MemShelf, call: &[u8]) {
    if let [name, number] = call {
        let op = match *name {
            b's' => ShelfOp::Size,
            b'r' => ShelfOp::Read,
            b'c' => ShelfOp::Create,
            _ => ShelfOp::Append,
        };
        let number = u64::from(number.saturating_sub(b'0'));
        shelf.fail(op, number).expect(rt, "no memory");
    }
}

// The status, the faults of the shelf and what was printed.
fn end_of<R: Threads + Wait + Sync + Abort>(
    rt: &R,
    alloc: Global,
    case: &[u8],
    shelf: &mut MemShelf,
) -> Result<Vec<u8>, AllocError> {
    let mut sink = MemSink::new(alloc);
    let words = std::str::from_utf8(part(case, 0)).unwrap_or("?");
    let status = ended(rt, alloc, words, shelf, &mut sink, &FreeTurn);
    let (reading, writing) = shelf.faults();
    let mut text = Vec::new(alloc);
    text.extend_from_slice(format!(in alloc; "{status} {reading},{writing} ")?.as_bytes())?;
    text.extend_from_slice(sink.bytes())?;
    Ok(text)
}

fn check<R: Threads + Wait + Sync + Abort>(rt: &R, alloc: Global, case: &[u8]) {
    let mut shelf = shelf_of(alloc, part(case, 1), part(case, 2), part(case, 3)).expect(
        rt,
        "no memory",
    );
    plan(rt, &mut shelf, part(case, 4));
    let found = end_of(rt, alloc, case, &mut shelf).expect(rt, "no memory");
    is_text(rt, &found, part(case, 5));
    is_text(rt, shelf.content("a.out").unwrap_or(b"none"), part(case, 6));
    is_text(rt, shelf.content("b.out").unwrap_or(b"none"), part(case, 7));
    is_text(rt, shelf.content("f").unwrap_or(b"none"), part(case, 8));
    is_text(
        rt,
        shelf.content("a").unwrap_or(b"no script"),
        part(case, 1),
    );
}

// Checks each case, and answers how many there are.
fn check_all<R: Threads + Wait + Sync + Abort>(rt: &R, alloc: Global, cases: &[u8]) -> usize {
    let mut count = 0usize;
    for case in cases.split(|byte| *byte == b'|') {
        check(rt, alloc, case);
        count = count.saturating_add(1);
    }
    count
}

#[test]
fn a_script_is_answered_and_summed_up(rt: HostRuntime) {
    let count = check_all(
        &rt,
        rt.alloc(),
        b"\
        a;~~~~~0 0,0 scripts 1 commands 0 full 0\ntable main writes 0 pairs 0\n~~none~none|\
        a;~put 5 50\nput 5 51\nget 5\nremove 5\nremove 5\n~~~~0 0,0 scripts 1 commands 5 full 0\ntable main writes 4 pairs 0\n~new\nold 50\nvalue 51\nold 51\nnone\n~none~none|\
        a;~put 1 18446744073709551614\nget 1\n~~~~0 0,0 scripts 1 commands 2 full 0\ntable main writes 1 pairs 1\n~new\nvalue 18446744073709551614\n~none~none|\
        a;~put 18446744073709551615 0\nclone c\nhigher c 18446744073709551614\nhigher c 18446744073709551615\nfloor c 18446744073709551615\n~~~~0 0,0 scripts 1 commands 5 full 0\ntable main writes 1 pairs 1\n~new\ncloned c\npair 18446744073709551615 0\nnone\npair 18446744073709551615 0\n~none~none|\
        a;~put 1 1\nput 2 2\nput 3 3\nclone c\ndepth c\n~~~~0 0,0 scripts 1 commands 5 full 0\ntable main writes 3 pairs 3\n~new\nnew\nnew\ncloned c\ndepth 2 pairs 3 settled\n~none~none|\
        a;~put 3 3\nput 1 1\nput 2 2\nclone c\ndepth c\n~~~~0 0,0 scripts 1 commands 5 full 0\ntable main writes 3 pairs 3\n~new\nnew\nnew\ncloned c\ndepth 2 pairs 3 settled\n~none~none|\
        a;~put 2 2\nput 1 1\nput 3 3\nremove 2\nclone c\nsee c 2\nfirst c\ncount c 0 9\ndepth c\nremove 1\nclone d\ndepth d\nexport c 0 9 f\n~~~~0 0,0 scripts 1 commands 13 full 0\ntable main writes 5 pairs 1\n~new\nnew\nnew\nold 2\ncloned c\nnone\npair 1 1\ncount 2\ndepth 2 pairs 2 settled\nold 1\ncloned d\ndepth 1 pairs 1 settled\nexported 2\n~none~key,value\n1,1\n3,3\n|\
        --rows=4;a;~put 2 2\nput 1 1\nput 3 3\nput 4 4\nclone c\nremove 1\nclone d\ndepth d\ndepth c\n~~~~1 0,0 scripts 1 commands 9 full 1\ntable main writes 4 pairs 4\n~new\nnew\nnew\nnew\ncloned c\nfull\ncloned d\ndepth 3 pairs 4 settled\ndepth 3 pairs 4 settled\n~none~none|\
        --rows=6;a;~put 2 2\nput 1 1\nput 3 3\nput 4 4\nclone c\nremove 1\nclone d\ndepth d\ndepth c\n~~~~0 0,0 scripts 1 commands 9 full 0\ntable main writes 5 pairs 3\n~new\nnew\nnew\nnew\ncloned c\nold 1\ncloned d\ndepth 3 pairs 3 unsettled\ndepth 3 pairs 4 settled\n~none~none|\
        a;~put 2 2\nput 1 1\nput 3 3\nremove 2\nclone c\nput 9 9\nsee c 2\nfirst c\ncount c 0 9\nfloor c 2\n~~~~0 0,0 scripts 1 commands 10 full 0\ntable main writes 5 pairs 3\n~new\nnew\nnew\nold 2\ncloned c\nnew\nnone\npair 1 1\ncount 2\npair 1 1\n~none~none|\
        a;~# two keys\r\n\n\tput 18446744073709551615 0 \r\n put 007 7\nget 8~~~~0 0,0 scripts 1 commands 3 full 0\ntable main writes 2 pairs 2\n~new\nnew\nnone\n~none~none|\
        a;~use t\nput 1 1\nuse main\nget 1\n~~~~0 0,0 scripts 1 commands 4 full 0\ntable main writes 0 pairs 0\ntable t writes 1 pairs 1\n~using t\nnew\nusing main\nnone\n~none~none|\
        a;~load l\nget 3\n~~key,value\n3,30\n1,10\n3,31\n~~0 0,0 scripts 1 commands 2 full 0\ntable main writes 3 pairs 2\n~loaded 3\nvalue 31\n~none~none|\
        a;~clone c\nput 1 1\nexport c 0 9 f\n~~~~0 0,0 scripts 1 commands 3 full 0\ntable main writes 1 pairs 1\n~cloned c\nnew\nexported 0\n~none~key,value\n",
    );
    is(&rt, count, 14);
}

#[test]
fn several_scripts_and_full_tables(rt: HostRuntime) {
    let count = check_all(
        &rt,
        rt.alloc(),
        b"\
        --rows;2;a;~put 1 1\nput 2 2\nput 3 3\nget 3\n~~~~1 0,0 scripts 1 commands 4 full 1\ntable main writes 2 pairs 2\n~new\nnew\nfull\nnone\n~none~none|\
        --rows=3;a;~put 1 1\nput 2 2\nput 3 3\nclone c\nput 2 9\nget 2\nremove 8\n~~~~1 0,0 scripts 1 commands 7 full 2\ntable main writes 3 pairs 3\n~new\nnew\nnew\ncloned c\nfull\nvalue 2\nfull\n~none~none|\
        --rows=3;a;~put 1 1\nput 2 2\nclone c\nput 1 9\nremove 2\nput 1 8\nget 1\n~~~~1 0,0 scripts 1 commands 7 full 1\ntable main writes 4 pairs 2\n~new\nnew\ncloned c\nold 1\nfull\nold 9\nvalue 8\n~none~none|\
        --rows=3;a;~put 2 2\nput 1 1\nput 3 3\nremove 2\nput 4 4\nput 2 9\n~~~~1 0,0 scripts 1 commands 6 full 1\ntable main writes 5 pairs 3\n~new\nnew\nnew\nold 2\nfull\nnew\n~none~none|\
        a;--rows=1;~load l\nget 3\n~~key,value\n3,30\n1,10\n3,31\n~~1 0,0 scripts 1 commands 2 full 1\ntable main writes 1 pairs 1\n~full after 1\nvalue 30\n~none~none|\
        a;b;--final;f;~put 1 10\nput 3 30\nremove 1\n~put 2 20\nput 4 40\n~~~0 0,0 scripts 2 commands 5 full 0\ntable main writes 5 pairs 3\n~new\nnew\nold 10\n~new\nnew\n~key,value\n2,20\n3,30\n4,40\n|\
        b;--final=f;a;~use t\nput 1 10\n~put 2 20\n~~~0 0,0 scripts 2 commands 3 full 0\ntable main writes 1 pairs 1\ntable t writes 1 pairs 1\n~using t\nnew\n~new\n~key,value\n2,20\n|\
        --generate;4;--seed;7;~~~~s1~0 0,0 scripts 1 commands 4 full 0\ntable main writes 3 pairs 3\n~none~none~none|\
        --seed=7;--generate=1;--workers=1;~~~~s1~0 0,0 scripts 1 commands 1 full 0\ntable main writes 0 pairs 0\n~none~none~none",
    );
    is(&rt, count, 9);
}

#[test]
fn refusals_are_told_and_leave_the_files(rt: HostRuntime) {
    let count = check_all(
        &rt,
        rt.alloc(),
        b"\
        a;~put 1 1\nPUT 1 1\nput\n~~~~3 0,0 script a line 2: UnknownWord\n~none~none~none|\
        a;~put 1\n~~~~3 0,0 script a line 1: WordCount\n~none~none~none|\
        a;~put 1 18446744073709551615\n~~~~3 0,0 script a line 1: BadNumber\n~none~none~none|\
        a;~clone a!\n~~~~3 0,0 script a line 1: BadName\n~none~none~none|\
        a;~put 1 -1\n~~~~3 0,0 script a line 1: BadNumber\n~none~none~none|\
        a;~GET 1\n~~~~3 0,0 script a line 1: UnknownWord\n~none~none~none|\
        a;~\xff 1\n~~~~3 0,0 script a line 1: UnknownWord\n~none~none~none|\
        a;~see c 1\n~~~~3 0,0 script a line 1: NoSuchClone\n~none~none~none|\
        a;~clone c\nclone c\n~~~~3 0,0 script a line 2: CloneTaken\n~none~none~none|\
        a;~clone c\nexport c 0 9 a.out\n~~~~3 0,0 script a line 2: OutputTaken\n~none~none~none|\
        a;~clone c\nexport c 0 9 e\nexport c 0 9 e\n~~~~3 0,0 script a line 3: OutputTaken\n~none~none~none|\
        a;~use t1\nuse t2\nuse t3\nuse t4\nuse t5\nuse t6\nuse t7\nuse t8\n~~~~3 0,0 script a line 8: TooManyTables\n~none~none~none|\
        a;~load l1\nload l2\nload l3\nload l4\nload l5\nload l6\nload l7\nload l8\nload l9\n~~~s2~3 0,0 script a line 9: TooManyLoads\n~none~none~none|\
        a;~load l\nclone c\nexport c 0 9 a.out\n~~key,value\n3\n~s2~3 0,0 script a line 3: OutputTaken\n~none~none~none|\
        a;b;~load l\n~put\n~key,value\n3\n~s3~3 0,0 script b line 1: WordCount\n~none~none~none|\
        a;~load l\n~~key,value\n3\n~~3 0,0 load l record 2: BadPair\n~none~none~none|\
        a;~load l\nload m\n~~key,value\n3\n~~4 0,0 read fault: m\n~none~none~none|\
        a;~load m\nload l\n~~key,value\n3\n~~4 0,0 read fault: m\n~none~none~none|\
        a;b;--final=f;~get 1\n~clone c\nexport c 0 9 f\n~~~3 0,0 script b line 2: OutputTaken\n~none~none~none|\
        a;c;~PUT\n~~~~4 0,0 read fault: c\n~none~none~none|\
        ~put 1 1\n~~~s1~2 0,0 words refused: choice\n~none~none~none|\
        a;a;~put 1 1\n~~~s1~2 0,0 words refused: output\n~none~none~none|\
        -a;~put 1 1\n~~~s1~2 0,0 words refused: usage\n~none~none~none|\
        ;~put 1 1\n~~~s1~2 0,0 words refused: name\n~none~none~none|\
        --rows=0;a;~put 1 1\n~~~s1~2 0,0 words refused: number\n~none~none~none",
    );
    is(&rt, count, 25);
}

#[test]
fn each_call_that_fails_is_told(rt: HostRuntime) {
    let count = check_all(
        &rt,
        rt.alloc(),
        b"\
        a;~load l\nclone c\nexport c 0 9 f\n~~key,value\n3,30\n~s1~4 1,0 read fault: a\n~none~none~none|\
        a;~load l\nclone c\nexport c 0 9 f\n~~key,value\n3,30\n~r1~4 1,0 read fault: a\n~none~none~none|\
        a;~load l\nclone c\nexport c 0 9 f\n~~key,value\n3,30\n~s2~4 1,0 read fault: l\n~none~none~none|\
        a;~load l\nclone c\nexport c 0 9 f\n~~key,value\n3,30\n~c1~5 0,1 write fault: a.out\n~none~none~none|\
        a;~load l\nclone c\nexport c 0 9 f\n~~key,value\n3,30\n~a1~5 0,1 write fault: f\n~~none~|\
        a;~load l\nclone c\nexport c 0 9 f\n~~key,value\n3,30\n~a2~5 0,1 write fault: a.out\n~~none~key,value\n3,30\n|\
        a;b;--final;f;~put 1 10\nput 3 30\nremove 1\n~put 2 20\nput 4 40\n~~r2~4 1,0 read fault: b\n~none~none~none|\
        a;b;~get 1\n~get 1\n~~c2~5 0,1 write fault: b.out\n~~none~none|\
        a;--final;f;~get 1\n~~~a2~5 0,1 write fault: f\n~none\n~none~|\
        a;~put 5 50\nput 5 51\nget 5\nremove 5\nremove 5\n~~~a1~5 0,1 write fault: a.out\n~~none~none|\
        a;~load l\nclone c\nexport c 0 9 f\n~~key,value\n3,30\n~c2~5 0,1 write fault: f\n~~none~none|\
        --final=f;--generate=4;~~~~c1~5 0,1 write fault: f\n~none~none~none|\
        --final=f;--generate=4;~~~~a1~5 0,1 write fault: f\n~none~none~",
    );
    is(&rt, count, 13);
}

// No file is asked for once there is a plan, so that no call behind the last one of its reading can fail.
#[test]
fn nothing_is_read_behind_the_plan(rt: HostRuntime) {
    let count = check_all(
        &rt,
        rt.alloc(),
        b"\
        a;~get 1\n~~~s2~0 0,0 scripts 1 commands 1 full 0\ntable main writes 0 pairs 0\n~none\n~none~none|\
        a;~get 1\n~~~r2~0 0,0 scripts 1 commands 1 full 0\ntable main writes 0 pairs 0\n~none\n~none~none|\
        a;~load l\n~~key,value\n3,30\n~s3~0 0,0 scripts 1 commands 1 full 0\ntable main writes 1 pairs 1\n~loaded 1\n~none~none|\
        a;~load l\n~~key,value\n3,30\n~r3~0 0,0 scripts 1 commands 1 full 0\ntable main writes 1 pairs 1\n~loaded 1\n~none~none|\
        a;b;--final=f;~put 1 1\n~load l\n~key,value\n3,30\n~s4~0 0,0 scripts 2 commands 2 full 0\ntable main writes 2 pairs 2\n~new\n~loaded 1\n~key,value\n1,1\n3,30\n|\
        a;b;--final=f;~put 1 1\n~load l\n~key,value\n3,30\n~r4~0 0,0 scripts 2 commands 2 full 0\ntable main writes 2 pairs 2\n~new\n~loaded 1\n~key,value\n1,1\n3,30\n|\
        a;~put\n~~~s2~3 0,0 script a line 1: WordCount\n~none~none~none",
    );
    is(&rt, count, 7);
}
