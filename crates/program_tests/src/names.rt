use crate::asserts::{is, times};
use crate::cases::{Reads, hold};
use snap_text::{is_file, is_name};
use std::alloc::Global;
use std::process::Abort;

fn is_long_name<R: Abort>(rt: &R, alloc: Global, count: usize) -> bool {
    is_name(&times(rt, alloc, b'_', count))
}

#[test]
fn tells_names(rt: HostRuntime) {
    let count = hold(
        &rt,
        rt.alloc(),
        Reads::Names,
        b"\
        a~true|\
        _~true|\
        Main_9~true|\
        7~true|\
        ~false|\
        a b~false|\
        a-b~false|\
        a!~false|\
        a\x00~false|\
        \xc3\xa9~false",
    );
    is(&rt, count, 10);
    is(&rt, is_long_name(&rt, rt.alloc(), 32), true);
    is(&rt, is_long_name(&rt, rt.alloc(), 33), false);
}

fn is_long_file<R: Abort>(rt: &R, alloc: Global, count: usize) -> bool {
    is_file(&times(rt, alloc, b'a', count))
}

#[test]
fn tells_file_names(rt: HostRuntime) {
    let count = hold(
        &rt,
        rt.alloc(),
        Reads::Files,
        b"\
        a~true|\
        a-b/C_9.txt~true|\
        /~true|\
        .~true|\
        _-~true|\
        ~false|\
        -~false|\
        -a~false|\
        a b~false|\
        a\n~false|\
        a\x00~false|\
        a\xff~false|\
        a@~false|\
        a:~false",
    );
    is(&rt, count, 14);
    is(&rt, is_long_file(&rt, rt.alloc(), 200), true);
    is(&rt, is_long_file(&rt, rt.alloc(), 201), false);
}
