use crate::asserts::{holds, is, is_at, is_text_at};
use crate::cases::{Reads, hold, shown};
use snap_model::Command;
use snap_text::{Line, LineKind, ScriptFault, read_script};
use std::alloc::{AllocError, Global};
use std::process::Abort;

#[test]
fn reads_commands(rt: HostRuntime) {
    let count = hold(
        &rt,
        rt.alloc(),
        Reads::Script,
        b"\
        ~|\
        \n~|\
        put 5 50\n~1 Put { key: 5, value: 50 };|\
        remove 5\nget 6\nput 7 70~1 Remove { key: 5 };2 Get { key: 6 };3 Put { key: 7, value: 70 };|\
        get 1\r\nget 2\r\n~1 Get { key: 1 };2 Get { key: 2 };|\
        \x20\tget\t  1\t \n~1 Get { key: 1 };|\
        \n \t\n# get 1\n#\n  #x y\nget 2\n~6 Get { key: 2 };|\
        # \xff\xfe\x00\nget 2~2 Get { key: 2 };|\
        \r\nget 3~2 Get { key: 3 };|\
        get 000000000000000000000000000000000000007~1 Get { key: 7 };|\
        get 18446744073709551615~1 Get { key: 18446744073709551615 };|\
        put 18446744073709551615 18446744073709551614~1 Put { key: 18446744073709551615, value: 18446744073709551614 };|\
        put 0 0~1 Put { key: 0, value: 0 };",
    );
    is(&rt, count, 13);
}

#[test]
fn refuses_the_first_bad_line(rt: HostRuntime) {
    let count = hold(
        &rt,
        rt.alloc(),
        Reads::Script,
        b"\
        sea a 1\nget 1\nget 2~line 1: unknown word|\
        get 1\nPut 1 1\nget 2~line 2: unknown word|\
        get 1\nget 2\nputs 1 1~line 3: unknown word|\
        put 1\nget 1\nget 2\n~line 1: wrong number of words|\
        get 1\nremove 1 2\nget 2\n~line 2: wrong number of words|\
        get 1\nget 2\nget\n~line 3: wrong number of words|\
        get x\nget 1\nget 2\n~line 1: bad number|\
        get 1\nput 1 y\nget 2\n~line 2: bad number|\
        get 1\nget 2\nremove -1\n~line 3: bad number|\
        # one\n\nget x\nsee\n~line 3: bad number|\
        put x y z~line 1: wrong number of words|\
        put 1 2 3~line 1: wrong number of words|\
        pu 1 x~line 1: unknown word|\
        put x y~line 1: bad number|\
        put 1 18446744073709551615~line 1: bad number|\
        put 18446744073709551616 1~line 1: bad number|\
        get 18446744073709551616~line 1: bad number|\
        get 99999999999999999999~line 1: bad number|\
        get 1000000000000000000000000000000000000000~line 1: bad number|\
        get +1~line 1: bad number|\
        get 1_0~line 1: bad number|\
        get 1#~line 1: bad number|\
        get 1 # one~line 1: wrong number of words|\
        get 1\x00~line 1: bad number|\
        \x00get 1~line 1: unknown word|\
        get \xff~line 1: bad number|\
        g\xc3\x28 1~line 1: unknown word|\
        get\r1~line 1: unknown word|\
        get 1\r2\n~line 1: bad number|\
        get 1\r\r\n~line 1: bad number|\
        get 1\r~line 1: bad number|\
        get\x0b1~line 1: unknown word|\
        \rget 1~line 1: unknown word",
    );
    is(&rt, count, 33);
}

#[test]
fn reads_the_commands_of_clones_and_files(rt: HostRuntime) {
    let count = hold(
        &rt,
        rt.alloc(),
        Reads::Script,
        b"\
        use t_1~1 Table { name: Name { text: \"t_1\" } };|\
        load a-b/c.csv~1 Load { file: Name { text: \"a-b/c.csv\" } };|\
        clone a~1 Snap { slot: 0, name: Name { text: \"a\" } };|\
        clone a\ndrop a~1 Snap { slot: 0, name: Name { text: \"a\" } };2 Forget { slot: 0, name: Name { text: \"a\" } };|\
        #\nclone a\nsee a 7~2 Snap { slot: 0, name: Name { text: \"a\" } };3 See { slot: 0, key: 7 };|\
        clone a\nfirst a~1 Snap { slot: 0, name: Name { text: \"a\" } };2 First { slot: 0 };|\
        clone a\nlast a~1 Snap { slot: 0, name: Name { text: \"a\" } };2 Last { slot: 0 };|\
        clone a\nfloor a 1~1 Snap { slot: 0, name: Name { text: \"a\" } };2 Floor { slot: 0, key: 1 };|\
        clone a\nlower a 2~1 Snap { slot: 0, name: Name { text: \"a\" } };2 Lower { slot: 0, key: 2 };|\
        clone a\nceiling a 3~1 Snap { slot: 0, name: Name { text: \"a\" } };2 Ceiling { slot: 0, key: 3 };|\
        clone a\nhigher a 4~1 Snap { slot: 0, name: Name { text: \"a\" } };2 Higher { slot: 0, key: 4 };|\
        clone a\ncount a 9 1~1 Snap { slot: 0, name: Name { text: \"a\" } };2 Count { slot: 0, lo: 9, hi: 1 };|\
        clone a\ndepth a~1 Snap { slot: 0, name: Name { text: \"a\" } };2 Depth { slot: 0 };|\
        clone a\nclone b\ndepth b\ndrop a\ndepth b~1 Snap { slot: 0, name: Name { text: \"a\" } };2 Snap { slot: 1, name: Name { text: \"b\" } };3 Depth { slot: 1 };4 Forget { slot: 0, name: Name { text: \"a\" } };5 Depth { slot: 1 };|\
        clone a\nexport a 0 9 e~1 Snap { slot: 0, name: Name { text: \"a\" } };2 Export { slot: 0, lo: 0, hi: 9, file: Name { text: \"e\" } };|\
        clone a\nclone b\nlast b~1 Snap { slot: 0, name: Name { text: \"a\" } };2 Snap { slot: 1, name: Name { text: \"b\" } };3 Last { slot: 1 };|\
        clone a\nuse t\nlast a~1 Snap { slot: 0, name: Name { text: \"a\" } };2 Table { name: Name { text: \"t\" } };3 Last { slot: 0 };|\
        clone a\ndrop a\nclone a~1 Snap { slot: 0, name: Name { text: \"a\" } };2 Forget { slot: 0, name: Name { text: \"a\" } };3 Snap { slot: 0, name: Name { text: \"a\" } };|\
        clone a\nclone b\ndrop a\nclone c\nlast b\nfirst c~1 Snap { slot: 0, name: Name { text: \"a\" } };2 Snap { slot: 1, name: Name { text: \"b\" } };3 Forget { slot: 0, name: Name { text: \"a\" } };4 Snap { slot: 0, name: Name { text: \"c\" } };5 Last { slot: 1 };6 First { slot: 0 };",
    );
    is(&rt, count, 19);
}

#[test]
fn refuses_bad_names_and_clones(rt: HostRuntime) {
    let count = hold(
        &rt,
        rt.alloc(),
        Reads::Script,
        b"\
        clone a\nclone a\n~line 2: the clone is taken|\
        see a 1\n~line 1: no such clone|\
        put 1\n~line 1: wrong number of words|\
        clone a!\n~line 1: bad name|\
        clone a\ndrop a\nsee a 1~line 3: no such clone|\
        clone a\ndrop b~line 2: no such clone|\
        clone a\nfirst A~line 2: no such clone|\
        get 1\nlast a\nclone a~line 2: no such clone|\
        depth a~line 1: no such clone|\
        clone a\ndrop a\ndepth a~line 3: no such clone|\
        depth~line 1: wrong number of words|\
        clone a\ndepth a 1~line 2: wrong number of words|\
        depth a!~line 1: bad name|\
        Depth a~line 1: unknown word|\
        deep a~line 1: unknown word|\
        Clone a~line 1: unknown word|\
        use~line 1: wrong number of words|\
        use a b~line 1: wrong number of words|\
        see a~line 1: wrong number of words|\
        count a 1~line 1: wrong number of words|\
        export a 1 2~line 1: wrong number of words|\
        export a 1 2 e f~line 1: wrong number of words|\
        see a! x~line 1: bad name|\
        see a x~line 1: bad number|\
        count a 1 x~line 1: bad number|\
        export a x 2 -e~line 1: bad number|\
        export a 1 2 -e~line 1: bad name|\
        export a 1 2 e~line 1: no such clone|\
        load -e~line 1: bad name|\
        load e*~line 1: bad name|\
        use a-b~line 1: bad name|\
        use \xff~line 1: bad name|\
        use a23456789_123456789_123456789_123~line 1: bad name|\
        see a -1~line 1: bad number",
    );
    is(&rt, count, 34);
}

/// The lines `clone c0`, `clone c1` and so on, and then more lines.
fn clones_and(alloc: Global, count: u32, more: &str) -> Result<String, AllocError> {
    let mut text = String::new(alloc);
    for n in 0..count {
        let line = format!(in alloc; "clone c{n}\n")?;
        text.push_str(line.as_str())?;
    }
    text.push_str(more)?;
    Ok(text)
}

/// Reads so many clones and then more lines, and compares the first fault.
fn keeps<R: Abort>(rt: &R, alloc: Global, count: u32, more: &str, want: Option<(u32, LineKind)>) {
    let text = clones_and(alloc, count, more).expect(rt, "no memory");
    let found = read_script(alloc, text.as_bytes()).err();
    let want = want.map(|(line, kind)| ScriptFault::Line { line, kind });
    is_at(rt, &(count, more), found, want);
}

#[test]
fn keeps_64_clones(rt: HostRuntime) {
    let alloc = rt.alloc();
    keeps(&rt, alloc, 64, "", None);
    keeps(&rt, alloc, 65, "", Some((65, LineKind::TooManyClones)));
    let taken = Some((65, LineKind::CloneTaken));
    keeps(&rt, alloc, 64, "clone c5\n", taken);
    keeps(&rt, alloc, 64, "drop c5\nclone d\nsee d 1\n", None);
    let late = Some((67, LineKind::TooManyClones));
    keeps(&rt, alloc, 64, "drop c5\nclone d\nclone e\n", late);
    let gone = Some((66, LineKind::NoSuchClone));
    keeps(&rt, alloc, 64, "drop c63\nsee c63 1\n", gone);
}

/// The slot of the clone that the last line makes.
fn last_slot(lines: &[Line]) -> Option<u8> {
    match &lines.last()?.command {
        Command::Snap { slot, .. } => Some(*slot),
        _ => None,
    }
}

#[test]
fn gives_the_lowest_free_slot(rt: HostRuntime) {
    let more = "drop c9\ndrop c5\nclone d\n";
    let text = clones_and(rt.alloc(), 64, more).expect(&rt, "no memory");
    let script = read_script(rt.alloc(), text.as_bytes()).expect(&rt, "a script");
    is(&rt, last_slot(script.lines()), Some(5));
}

fn many(alloc: Global, first: &[u8], line: &[u8], count: u32) -> Result<Vec<u8>, AllocError> {
    let mut text = Vec::from_slice(alloc, first)?;
    for _ in 0..count {
        text.extend_from_slice(line)?;
    }
    Ok(text)
}

fn are_gets_of_one(lines: &[Line]) -> bool {
    lines
        .iter()
        .all(|line| matches!(line.command, Command::Get { key: 1 }))
}

fn last_number(lines: &[Line]) -> Option<u32> {
    Some(lines.last()?.line)
}

#[test]
fn reads_as_many_lines_as_there_may_be(rt: HostRuntime) {
    let text = many(rt.alloc(), b"", b"get 1\n", 100_000).expect(&rt, "no memory");
    let script = read_script(rt.alloc(), &text).expect(&rt, "a script");
    let lines = script.lines();
    is(&rt, lines.len(), 100_000);
    holds(&rt, are_gets_of_one(lines));
    is(&rt, last_number(lines), Some(100_000));
}

fn is_shown<R: Abort>(rt: &R, alloc: Global, first: &[u8], line: &[u8], count: u32, want: &str) {
    let text = many(alloc, first, line, count).expect(rt, "no memory");
    let found = shown(alloc, Reads::Script, &text).expect(rt, "no memory");
    is_text_at(rt, &(first, line, count), found.as_bytes(), want.as_bytes());
}

#[test]
fn is_too_long_before_a_bad_line(rt: HostRuntime) {
    let alloc = rt.alloc();
    is_shown(&rt, alloc, b"", b"get 1\n", 100_001, "too long");
    is_shown(&rt, alloc, b"bad\n", b"\n", 100_000, "too long");
    is_shown(&rt, alloc, b"bad\n", b"\n", 99_999, "line 1: unknown word");
    is_shown(&rt, alloc, b"bad", b"\n", 100_000, "line 1: unknown word");
    is_shown(&rt, alloc, b"#", b" ", 4_194_303, "");
    is_shown(&rt, alloc, b"#", b" ", 4_194_304, "too long");
}

#[test]
fn answers_a_fault_by_its_parts(rt: HostRuntime) {
    let fault = read_script(rt.alloc(), b"get 1\nget\n").err();
    let wanted = ScriptFault::Line {
        line: 2,
        kind: LineKind::WordCount,
    };
    is(&rt, fault, Some(wanted));
}
