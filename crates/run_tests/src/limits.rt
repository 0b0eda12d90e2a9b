//! A run at its limits: 32 scripts, 8 tables, 8 load files and 64 clones at one time.
use crate::asserts::{ended, is_status, is_text};
use snap_io::{FreeTurn, MemShelf, MemSink};
use snap_model::OutOfMemory;
use std::alloc::Global;
use std::process::Abort;
use std::sync::Wait;
use std::thread::Threads;

// A script that loads eight files into eight tables, and makes 64 clones of the last of them.
fn full_script(alloc: Global) -> Result<String, OutOfMemory> {
    let mut script = String::from_str(alloc, "load l0\n")?;
    for table in 1..8u32 {
        script.push_str(format!(in alloc; "use t{table}\nload l{table}\n")?.as_str())?;
    }
    for clone in 0..64u32 {
        script.push_str(format!(in alloc; "put 1 {clone}\nclone c{clone}\n")?.as_str())?;
    }
    script.push_str("see c0 1\nsee c63 1\nsee c63 7\n")?;
    Ok(script)
}

// That script, 31 scripts of one put each, and the load files, each of one pair.
fn full_shelf(alloc: Global) -> Result<MemShelf, OutOfMemory> {
    let mut shelf = MemShelf::new(alloc);
    shelf.add("s0", full_script(alloc)?.as_bytes())?;
    for place in 1..32u32 {
        let name = format!(in alloc; "s{place}")?;
        let script = format!(in alloc; "put {place} 5\n")?;
        shelf.add(name.as_str(), script.as_bytes())?;
    }
    for place in 0..8u32 {
        let name = format!(in alloc; "l{place}")?;
        let text = format!(in alloc; "key,value\n{place},6\n")?;
        shelf.add(name.as_str(), text.as_bytes())?;
    }
    Ok(shelf)
}

// The words: all scripts.
fn full_words(alloc: Global) -> Result<String, OutOfMemory> {
    let mut words = String::from_str(alloc, "--rows=999;")?;
    for place in 0..32u32 {
        words.push_str(format!(in alloc; "s{place};")?.as_str())?;
    }
    Ok(words)
}

fn runs_at_its_limits<R: Threads + Wait + Sync + Abort>(rt: &R, alloc: Global) {
    let words = full_words(alloc).expect(rt, "no memory");
    let mut shelf = full_shelf(alloc).expect(rt, "no memory");
    let mut sink = MemSink::new(alloc);
    is_status(
        rt,
        ended(rt, alloc, words.as_str(), &mut shelf, &mut sink, &FreeTurn),
        0,
    );
    is_text(
        rt,
        sink.bytes(),
        b"\
        scripts 32 commands 177 full 0\n\
        table main writes 32 pairs 32\n\
        table t1 writes 1 pairs 1\n\
        table t2 writes 1 pairs 1\n\
        table t3 writes 1 pairs 1\n\
        table t4 writes 1 pairs 1\n\
        table t5 writes 1 pairs 1\n\
        table t6 writes 1 pairs 1\n\
        table t7 writes 65 pairs 2\n",
    );
    let replies = shelf.content("s0.out").unwrap_or(b"none");
    is_text(rt, last_of(replies, 25), b"value 0\nvalue 63\nvalue 6\n");
    is_text(rt, shelf.content("s31.out").unwrap_or(b"none"), b"new\n");
}

// The last bytes of a text.
fn last_of(text: &[u8], count: usize) -> &[u8] {
    &text[text.len().saturating_sub(count)..]
}

#[test]
fn a_run_at_its_limits(rt: HostRuntime) {
    runs_at_its_limits(&rt, rt.alloc());
}
