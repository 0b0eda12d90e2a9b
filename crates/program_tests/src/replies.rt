ghost use Rattle.snap_text.specs.Replies.{IsReplyOf};

use crate::asserts::is_text;
use snap_model::{Command, Name, Reply};
use snap_text::reply_line;
use std::alloc::Global;
use std::process::Abort;

fn name<R: Abort>(rt: &R, alloc: Global, text: &str) -> Name {
    Name::new(alloc, text).expect(rt, "no memory")
}

/// Adds the line of a reply, for which there is memory.
fn add<R: Abort>(rt: &R, alloc: Global, command: Command, reply: Reply, text: &mut Vec<u8>)
    requires { IsReplyOf command reply }
{
    reply_line(alloc, &command, &reply, text).expect(rt, "no memory")
}

fn add_of_puts<R: Abort>(rt: &R, alloc: Global, text: &mut Vec<u8>) {
    add(
        rt,
        alloc,
        Command::Put { key: 5, value: 50 },
        Reply::New,
        text,
    );
    add(
        rt,
        alloc,
        Command::Put { key: 5, value: 50 },
        Reply::Old { value: 0 },
        text,
    );
    add(
        rt,
        alloc,
        Command::Put { key: 5, value: 50 },
        Reply::Full,
        text,
    );
}

fn add_of_removals<R: Abort>(rt: &R, alloc: Global, text: &mut Vec<u8>) {
    add(
        rt,
        alloc,
        Command::Remove { key: 5 },
        Reply::Old {
            value: 18_446_744_073_709_551_614,
        },
        text,
    );
    add(rt, alloc, Command::Remove { key: 5 }, Reply::Absent, text);
    add(rt, alloc, Command::Remove { key: 5 }, Reply::Full, text);
}

#[test]
fn writes_a_line_for_each_reply(rt: HostRuntime) {
    let alloc = rt.alloc();
    let mut text = Vec::new(alloc);
    add_of_puts(&rt, alloc, &mut text);
    add_of_removals(&rt, alloc, &mut text);
    add(
        &rt,
        alloc,
        Command::Get { key: 5 },
        Reply::Value { value: 50 },
        &mut text,
    );
    add(
        &rt,
        alloc,
        Command::Get { key: 5 },
        Reply::Absent,
        &mut text,
    );
    let want = b"new\nold 0\nfull\nold 18446744073709551614\nnone\nfull\nvalue 50\nnone\n";
    is_text(&rt, &text, want);
}

fn add_of_questions<R: Abort>(rt: &R, alloc: Global, text: &mut Vec<u8>) {
    add(
        rt,
        alloc,
        Command::See { slot: 0, key: 5 },
        Reply::Value { value: 50 },
        text,
    );
    add(
        rt,
        alloc,
        Command::Floor { slot: 0, key: 5 },
        Reply::Pair { key: 4, value: 40 },
        text,
    );
    add(
        rt,
        alloc,
        Command::Count {
            slot: 0,
            lo: 1,
            hi: 9,
        },
        Reply::Count { n: 7 },
        text,
    );
    add(
        rt,
        alloc,
        Command::Depth { slot: 0 },
        Reply::Depth {
            depth: 3,
            pairs: 7,
            settled: true,
        },
        text,
    );
    add(
        rt,
        alloc,
        Command::Depth { slot: 0 },
        Reply::Depth {
            depth: 4,
            pairs: 7,
            settled: false,
        },
        text,
    );
}

fn add_of_files<R: Abort>(rt: &R, alloc: Global, text: &mut Vec<u8>) {
    add(
        rt,
        alloc,
        Command::Export {
            slot: 0,
            lo: 1,
            hi: 9,
            file: name(rt, alloc, "a.csv"),
        },
        Reply::Exported { n: 7 },
        text,
    );
    add(
        rt,
        alloc,
        Command::Load {
            file: name(rt, alloc, "a.csv"),
        },
        Reply::Loaded { n: 12 },
        text,
    );
    add(
        rt,
        alloc,
        Command::Load {
            file: name(rt, alloc, "a.csv"),
        },
        Reply::FullAfter { n: 3 },
        text,
    );
}

#[test]
fn writes_the_replies_of_clones_and_files(rt: HostRuntime) {
    let alloc = rt.alloc();
    let mut text = Vec::new(alloc);
    add(
        &rt,
        alloc,
        Command::Table {
            name: name(&rt, alloc, "main"),
        },
        Reply::Using,
        &mut text,
    );
    add(
        &rt,
        alloc,
        Command::Snap {
            slot: 0,
            name: name(&rt, alloc, "c1"),
        },
        Reply::Snapped,
        &mut text,
    );
    add_of_questions(&rt, alloc, &mut text);
    add_of_files(&rt, alloc, &mut text);
    add(
        &rt,
        alloc,
        Command::Forget {
            slot: 0,
            name: name(&rt, alloc, "c1"),
        },
        Reply::Forgotten,
        &mut text,
    );
    let want =
        b"using main\ncloned c1\nvalue 50\npair 4 40\ncount 7\ndepth 3 pairs 7 settled\ndepth 4 pairs 7 unsettled\nexported 7\nloaded 12\nfull after 3\ndropped c1\n";
    is_text(&rt, &text, want);
}
