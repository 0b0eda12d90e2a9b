//! Reads of keys, as one text says what they answer.
ghost use Rattle.snap_prelude.specs.{IsOf};

use crate::asserts::is;
use crate::tables::number;
use snap_search::{Busy, get, try_get};
use snap_stamp::Key;
use snap_steps::{Pass, Rows};
use std::process::Abort;
use std::sync::Wait;

/// Reads answer so. A case is a key, and behind `~` its value, or `none`, or `7 of 8` where the
/// read meets a write in progress: so many of those that were entered had left.
pub(crate) fn reads_find<R: Abort + Wait>(rows: &Rows, rt: &R, pass: &mut Pass, cases: &str)
    requires { IsOf pass.old rows.now }
    ensures { IsOf pass.new rows.now }
{
    for case in cases.split('|') {
        let (key, want) = case.split_once('~').expect(rt, "no answer");
        read_finds(rows, rt, pass, number(rt, key), answer_of(rt, want));
    }
}

// `try_get` answers so. Where it has an answer, `get` has the same.
fn read_finds<R: Abort + Wait>(
    rows: &Rows,
    rt: &R,
    pass: &mut Pass,
    key: Key,
    want: Result<Option<u64>, Busy>,
)
    requires { IsOf pass.old rows.now }
    ensures { IsOf pass.new rows.now }
{
    is(rt, (key, try_get(rows, pass, key)), (key, want));
    if let Ok(value) = want {
        is(rt, (key, get(rows, rt, pass, key)), (key, value));
    }
}

fn answer_of<R: Abort>(rt: &R, word: &str) -> Result<Option<u64>, Busy> {
    if word == "none" {
        return Ok(None);
    }
    match word.split_once(" of ") {
        Some((left, entered)) => Err(Busy {
            left: number(rt, left),
            entered: number(rt, entered),
        }),
        None => Ok(Some(number(rt, word))),
    }
}
