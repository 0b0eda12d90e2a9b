use crate::asserts::{is, is_text_at, words_in};
use snap_words::{Job, Work, read_words};
use std::alloc::{AllocError, Global};
use std::process::Abort;

// What was read of words: the rows, whether there is a final file, and how many scripts and the last of them, or the
// numbers of what is made; or the fault.
fn shown<R: Abort>(rt: &R, alloc: Global, words: &str) -> String {
    let list = words_in(alloc, words).expect(rt, "no memory");
    match read_words(alloc, list.as_slice()) {
        Ok(job) => shown_job(alloc, &job).expect(rt, "no memory"),
        Err(fault) => format!(in alloc; "{fault}").expect(rt, "no memory"),
    }
}

fn shown_job(alloc: Global, job: &Job) -> Result<String, AllocError> {
    let rows = job.rows;
    let has_last = job.last.is_some();
    match &job.work {
        Work::Scripts { names } => {
            let count = names.list().len();
            let last = names
                .list()
                .last()
                .map(|name| name.text())
                .unwrap_or("none");
            format!(in alloc; "{rows} {has_last} {count} {last}")
        }
        Work::Made {
            commands,
            seed,
            workers,
        } => format!(in alloc; "{rows} {has_last} {commands} {seed} {workers}"),
    }
}

// Checks cases, between which `|` stands, each words, `~`, and what is shown of them; answers how many there are.
fn hold<R: Abort>(rt: &R, alloc: Global, cases: &str) -> usize {
    let mut count = 0usize;
    for case in cases.split('|') {
        let (words, want) = case.split_once('~').unwrap_or((case, "no want"));
        let found = shown(rt, alloc, words);
        is_text_at(rt, found.as_str(), want, words);
        count = count.saturating_add(1);
    }
    count
}

#[test]
fn refused_words(rt: HostRuntime) {
    let count = hold(
        &rt,
        rt.alloc(),
        "\
        --row;1;a;~usage|\
        a;--rows;~usage|\
        --rows;1;--rows=1;a;~usage|\
        a b;--help;~usage|\
        -a;~usage|\
        --rows;-5;a;~usage|\
        --rows=0;a b;~number|\
        --rows;1048577;a;~number|\
        --rows=;a;~number|\
        --generate;0;~number|\
        --generate=1000001;~number|\
        --generate=1;--workers;0;~number|\
        --generate=1;--seed;2147483648;~number|\
        --generate=1;--workers=33;~number|\
        a b;~name|\
        ;~name|\
        --;--rows;~name|\
        a;--final;b c;~name|\
        ~choice|\
        --generate=1;a;a;~choice|\
        a;a;--seed=1;~choice|\
        a;--workers=1;~choice|\
        a;b;a;~output|\
        a;--final;a.out;~output|\
        --final=a.out;b;--;a;~output",
    );
    is(&rt, count, 25);
}

#[test]
fn accepted_words(rt: HostRuntime) {
    let count = hold(
        &rt,
        rt.alloc(),
        "\
        a;~65536 false 1 a|\
        --;dir/a-1.txt;~65536 false 1 dir/a-1.txt|\
        a;--rows;3;b;~3 false 2 b|\
        --rows=1048576;a;b;c;--final=f;~1048576 true 3 c|\
        --generate;1;~65536 false 1 1 1|\
        --generate=1000000;--seed=2147483647;--workers;32;~65536 false 1000000 2147483647 32|\
        --seed;0;--generate=0010;--final;a.out;--rows=1;~1 true 10 0 1|\
        a0;a1;a2;a3;a4;a5;a6;a7;a8;a9;b0;b1;b2;b3;b4;b5;b6;b7;b8;b9;c0;c1;c2;c3;c4;c5;c6;c7;c8;c9;d0;d1;~65536 false 32 d1|\
        a0;a1;a2;a3;a4;a5;a6;a7;a8;a9;b0;b1;b2;b3;b4;b5;b6;b7;b8;b9;c0;c1;c2;c3;c4;c5;c6;c7;c8;c9;d0;d1;d2;~choice",
    );
    is(&rt, count, 9);
}
