use crate::asserts::is;
use crate::cases::{Reads, hold};
use snap_text::{PairsFault, read_pairs};
use std::alloc::{AllocError, Global};
use std::process::Abort;

#[test]
fn reads_pairs_in_their_order(rt: HostRuntime) {
    let count = hold(
        &rt,
        rt.alloc(),
        Reads::Pairs,
        b"\
        key,value\n3,30\n1,10\n3,31\n~3,30;1,10;3,31;|\
        key,value~|\
        key,value\n1,2~1,2;|\
        key,value\r\n1,2\r\n~1,2;|\
        \"key\",\"value\"\n\"1\",2\n~1,2;|\
        \n\nkey,value\n\n1,2\n\n~1,2;|\
        \xef\xbb\xbfkey,value\n007,0\n~7,0;|\
        key,value\n18446744073709551615,18446744073709551614\n~18446744073709551615,18446744073709551614;",
    );
    is(&rt, count, 8);
}

#[test]
fn refuses_the_first_bad_record(rt: HostRuntime) {
    let count = hold(
        &rt,
        rt.alloc(),
        Reads::Pairs,
        b"\
        ~record 1: bad pair|\
        \n\r\n~record 1: bad pair|\
        1,2\n~record 1: bad pair|\
        Key,value\n1,2\n~record 1: bad pair|\
        key,value,more\n1,2\n~record 1: bad pair|\
        key\n1,2\n~record 1: bad pair|\
        key,value\n3\n~record 2: bad pair|\
        key,value\n1,2,3\n~record 2: bad pair|\
        key,value\n1,2\n\nkey,value\n~record 3: bad pair|\
        key,value\n1,2\n3,4\n5,x\n7\n~record 4: bad pair|\
        key,value\n1,18446744073709551615\n~record 2: bad pair|\
        key,value\n18446744073709551616,1\n~record 2: bad pair|\
        key,value\n1, 2\n~record 2: bad pair|\
        key,value\n+1,2\n~record 2: bad pair|\
        key,value\n1,-2\n~record 2: bad pair|\
        key,value\n,\n~record 2: bad pair|\
        key,value\n1,\xff\n~record 2: bad pair|\
        key,value\n1\x00,2\n~record 2: bad pair|\
        key,value\n\"1,2\n~record 2: bad pair",
    );
    is(&rt, count, 19);
}

/// As many bytes as there may be, of which the third record is bad.
fn longest(alloc: Global) -> Result<Vec<u8>, AllocError> {
    let mut text = Vec::from_slice(alloc, b"key,value\n1,2\n")?;
    text.resize(16_777_214, b'\n')?;
    text.extend_from_slice(b"\n3")?;
    Ok(text)
}

fn is_refused<R: Abort>(rt: &R, alloc: Global, text: &[u8], want: PairsFault) {
    is(rt, read_pairs(alloc, text).err(), Some(want));
}

#[test]
fn reads_as_many_bytes_as_there_may_be(rt: HostRuntime) {
    let mut text = longest(rt.alloc()).expect(&rt, "no memory");
    is(&rt, text.len(), 16_777_216);
    is_refused(&rt, rt.alloc(), &text, PairsFault::Record { number: 3 });
    text.extend_from_slice(b"\n").expect(&rt, "no memory");
    is_refused(&rt, rt.alloc(), &text, PairsFault::TooLong);
}
