//! Sessions of one worker, and of two in turns.
use crate::cases::{hold, holds, is, load_files, opened};
use snap_model::{Command, Name, OutOfMemory};
use snap_service::{Fronts, Session};
use std::alloc::Global;
use std::process::Abort;

#[test]
fn one_worker_is_answered_as_by_plain_maps(rt: HostRuntime) {
    let count = hold(
        &rt,
        rt.alloc(),
        64,
        b"\
        put 7 70\nget 7\nput 7 71\n~New;Value { value: 70 };Old { value: 70 };|\
        put 18446744073709551615 0\nclone c\nhigher c 18446744073709551614\nhigher c 18446744073709551615\nfloor c 18446744073709551615\n\
        ~New;Snapped;Pair { key: 18446744073709551615, value: 0 };Absent;Pair { key: 18446744073709551615, value: 0 };|\
        put 2 2\nput 1 1\nput 3 3\nremove 2\nclone c\nsee c 2\nfirst c\ncount c 0 9\nfloor c 2\nput 3 33\nput 4 4\nsee c 3\nlast c\nlower c 3\nceiling c 2\n\
        ~New;New;New;Old { value: 2 };Snapped;Absent;Pair { key: 1, value: 1 };Count { n: 2 };Pair { key: 1, value: 1 };\
        Old { value: 3 };New;Value { value: 3 };Pair { key: 3, value: 3 };Pair { key: 1, value: 1 };Pair { key: 3, value: 3 };|\
        put 1 10\nput 2 20\nput 3 30\nclone c\nput 1 9\nput 2 9\nput 3 9\nput 4 9\nput 5 9\nexport c 1 2 e\nexport c 9 3 f\n\
        ~New;New;New;Snapped;Old { value: 10 };Old { value: 20 };Old { value: 30 };New;New;Exported { n: 2 };Exported { n: 0 };\
        key,value\n1,10\n2,20\nkey,value\n|\
        put 1 10\nput 2 20\nput 3 30\nclone c\ncount c 9 3\ncount c 2 2\n~New;New;New;Snapped;Count { n: 0 };Count { n: 1 };|\
        use t\nput 1 1\nclone c\nuse main\nget 1\nremove 1\nsee c 1\n~Using;New;Snapped;Using;Absent;Absent;Value { value: 1 };|\
        load pairs\nget 3\nget 1\n~Loaded { n: 3 };Value { value: 31 };Value { value: 10 };|\
        clone c\nput 5 50\nlast c\ndrop c\nclone c\nlast c\n~Snapped;New;Absent;Forgotten;Snapped;Pair { key: 5, value: 50 };",
    );
    is(&rt, count, 8);
}

#[test]
fn where_rows_run_out_writes_are_refused(rt: HostRuntime) {
    let count = hold(
        &rt,
        rt.alloc(),
        2,
        b"\
        put 1 1\nput 2 2\nput 3 3\nput 1 5\nremove 9\nget 3\n~New;New;Full;Old { value: 1 };Absent;Absent;|\
        put 1 1\nput 2 2\nclone c\nput 1 9\nremove 1\nget 1\nsee c 1\n~New;New;Snapped;Full;Full;Value { value: 1 };Value { value: 1 };|\
        put 9 9\nload pairs\nget 3\nget 1\n~New;FullAfter { n: 1 };Value { value: 30 };Absent;",
    );
    is(&rt, count, 3);
}

// Which commands a new session can run.
fn can_run<R: Abort>(rt: &R, alloc: Global, command: Command) -> bool {
    asked(rt, alloc, &command).expect(rt, "no memory")
}

fn asked<R: Abort>(rt: &R, alloc: Global, command: &Command) -> Result<bool, OutOfMemory> {
    let (service, kit) = opened(rt, alloc, 4)?;
    let Ok(session) = Session::open(alloc, &service, kit) else {
        return Err(OutOfMemory);
    };
    let loads = load_files(rt, alloc)?;
    Ok(session.can_run(command, &loads))
}

fn name<R: Abort>(rt: &R, alloc: Global, text: &str) -> Name {
    Name::new(alloc, text).expect(rt, "no memory")
}

#[test]
fn a_new_session_can_run_what_asks_no_clone(rt: HostRuntime) {
    let alloc = rt.alloc();
    let clone = Command::Snap {
        slot: 63,
        name: name(&rt, alloc, "c"),
    };
    holds(&rt, can_run(&rt, alloc, clone));
    let beyond = Command::Snap {
        slot: 64,
        name: name(&rt, alloc, "c"),
    };
    holds(&rt, !can_run(&rt, alloc, beyond));
    holds(&rt, !can_run(&rt, alloc, Command::First { slot: 0 }));
    holds(&rt, !can_run(&rt, alloc, Command::Depth { slot: 0 }));
    let table = name(&rt, alloc, "t");
    holds(&rt, can_run(&rt, alloc, Command::Table { name: table }));
    let table = name(&rt, alloc, "u");
    holds(&rt, !can_run(&rt, alloc, Command::Table { name: table }));
    let file = name(&rt, alloc, "pairs");
    holds(&rt, can_run(&rt, alloc, Command::Load { file }));
    let file = name(&rt, alloc, "other");
    holds(&rt, !can_run(&rt, alloc, Command::Load { file }));
    let greatest = Command::Put {
        key: 0,
        value: u64::MAX,
    };
    holds(&rt, !can_run(&rt, alloc, greatest));
}

#[test]
fn no_fronts_are_none(rt: HostRuntime) {
    is(&rt, Fronts::none(rt.alloc()).list().len(), 0);
}
