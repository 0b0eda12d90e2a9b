use crate::asserts::is;
use crate::cases::{Reads, hold};

#[test]
fn reads_numbers(rt: HostRuntime) {
    let count = hold(
        &rt,
        rt.alloc(),
        Reads::Numbers,
        b"\
        0~Some(0)|\
        007~Some(7)|\
        18446744073709551615~Some(18446744073709551615)|\
        0018446744073709551615~Some(18446744073709551615)|\
        18446744073709551616~None|\
        100000000000000000000~None|\
        ~None|\
        -1~None|\
        +1~None|\
        \x201~None|\
        1a~None|\
        \xff~None",
    );
    is(&rt, count, 12);
}
