//! New tables, as tests begin with, and calls of their first pass.
ghost use Rattle.std.specs.Prelude.{◌≡◌, ◌<◌, ◌≤◌, ◌^◌};
ghost use Rattle.snap_table.specs.Ready.{IsReadyTo};
ghost use Rattle.snap_update.specs.Answers.{FitsWord};

use crate::asserts::{holds, is};
use snap_model::Call;
use snap_steps::{Pass, Rows};
use snap_table::make_call;
use std::alloc::Global;
use std::process::Abort;
use std::sync::Wait;

/// Puts at the keys 10 to 70, each of itself.
pub(crate) const SEVEN: &str = "10~10|20~20|30~30|40~40|50~50|60~60|70~70";

/// An empty table of so many rows, and its one pass.
pub(crate) fn open_for_one<R: Abort>(rt: &R, alloc: Global, count: u32) -> (Rows, Pass)
    requires { (0 < count) × (count ≤ 1048576) }
    ensures rows { result.0.rows ≡ count }
    ensures pass { IsReadyTo result.0 0 0 result.1 }
{
    let (rows, mut passes) = Rows::open(alloc, count, 1).expect(rt, "no memory");
    let pass = passes.pop().expect(rt, "no pass");
    (rows, pass)
}

/// An empty table of so many rows, and its two passes.
pub(crate) fn open_for_two<R: Abort>(rt: &R, alloc: Global, count: u32) -> (Rows, Pass, Pass)
    requires { (0 < count) × (count ≤ 1048576) }
    ensures rows { (result.0.rows ≡ count) × (result.0.passes ≡ 2) }
    ensures first { IsReadyTo result.0 0 0 result.1 }
    ensures second { IsReadyTo result.0 1 0 result.2 }
{
    let (rows, mut passes) = Rows::open(alloc, count, 2).expect(rt, "no memory");
    let second = passes.pop().expect(rt, "no second pass");
    let first = passes.pop().expect(rt, "no first pass");
    (rows, first, second)
}

/// A table of so many rows with what the first of its two passes has put: `put_all` says how.
pub(crate) fn open_with<R: Abort + Wait>(
    rt: &R,
    alloc: Global,
    count: u32,
    cases: &str,
) -> (Rows, Pass, Pass)
    requires { (0 < count) × (count ≤ 1048576) }
    ensures first { IsReadyTo result.0 0 1000 result.1 }
    ensures second { IsReadyTo result.0 1 0 result.2 }
{
    let (rows, mut first, second) = open_for_two(rt, alloc, count);
    put_all(&rows, rt, &mut first, cases);
    (rows, first, second)
}

/// Puts of the first pass at keys that the table hasn't. A case is a key, and behind `~` the value.
pub(crate) fn put_all<R: Abort + Wait>(rows: &Rows, rt: &R, pass: &mut Pass, cases: &str)
    requires { IsReadyTo rows.now 0 1000 pass.old }
    ensures { IsReadyTo rows.now 0 1000 pass.new }
{
    for case in cases.split('|') {
        let (key, value) = case.split_once('~').expect(rt, "no value");
        let call = Call::Put {
            key: number(rt, key),
            value: number(rt, value),
        };
        call_answers(rows, rt, pass, &call, None);
    }
}

/// A call of the first pass has this reply.
pub(crate) fn call_answers<R: Abort + Wait>(
    rows: &Rows,
    rt: &R,
    pass: &mut Pass,
    call: &Call,
    want: Option<u64>,
)
    requires pass { IsReadyTo rows.now 0 1000 pass.old }
    requires value { FitsWord call.now }
    ensures { IsReadyTo rows.now 0 1000 pass.new }
{
    holds(rt, pass.uses() < 1_000);
    is(rt, make_call(rows, rt, pass, call), Ok(want));
}

/// The number that the word says.
pub(crate) fn number<R: Abort>(rt: &R, word: &str) -> u64
    ensures { result < 2 ^ 32 }
{
    let number: u32 = word.parse().expect(rt, "no number");
    number as u64
}
