//! Four threads that put and remove, and make clones between: each clone is settled and shallow, its keys rise, of the
//! thread's own keys it has what that thread did, and of another's what that had done between two of its writes.
ghost use Rattle.std.specs.Prelude.{◌≡◌, ◌+◌, ◌*◌, ◌<◌};
ghost use Rattle.snap_table.specs.Ready.{IsReadyTo};

use crate::asserts::is;
use crate::states::{
    Keys, Span, few_after, few_are_between, few_are_put, few_in, few_keys, key_at, many_keys,
    spans_in,
};
use snap_table::{Pass, SnapTable, TableView};
use snap_view::Settled;
use std::alloc::Global;
use std::sync::Wait;
use std::thread;
use std::thread::Threads;

// The fewest rows of a tree of each depth from 1 on in which the sides of each row differ by one level at most. So a
// tree is no deeper than 1.44 log2(rows + 2).
const FEWEST_ROWS: &str =
    "1 2 4 7 12 20 33 54 88 143 232 376 609 986 1596 2583 4180 6764 10945 17710";

// The greatest depth of such a tree of so many rows.
fn greatest_depth(rows: u64) -> u32 {
    let mut depth = 0u32;
    for fewest in FEWEST_ROWS.split_whitespace() {
        if fewest.parse::<u64>().unwrap_or(u64::MAX) <= rows {
            depth = depth.saturating_add(1);
        }
    }
    depth
}

// Whether the clone of so many pairs is settled, and no deeper than its rows need. A row without a value has two
// children, so there are fewer of them than pairs.
fn is_balanced(view: &mut TableView<'_>, pairs: u64) -> bool {
    let rows = pairs.saturating_add(pairs.saturating_sub(1));
    matches!(view.settled(), Settled::Yes) && view.depth() <= greatest_depth(rows)
}

// A round of eight writes at these keys: whether they put, and whether a clone is made behind them.
#[derive(Clone, Copy)]
struct Round {
    number: u64,
    keys: Keys,
    puts: bool,
    clones: bool,
}

fn round_of(course: Course, who: u32, number: u64) -> Round
    ensures { result.number ≡ number }
{
    match course {
        Course::Few => Round {
            number,
            keys: few_keys(who, number),
            puts: few_are_put(number),
            clones: true,
        },
        Course::Many => Round {
            number,
            keys: many_keys(who),
            puts: number < 313,
            clones: number % 104 == 103,
        },
    }
}

fn write_eight<R: Wait>(table: &SnapTable, rt: &R, mut pass: Pass, who: u32, round: Round) -> Pass
    requires ready { IsReadyTo table.now who (9 * round.number) pass }
    requires few { round.number < 2000 }
    ensures { IsReadyTo table.now who (9 * round.number + 8) result }
{
    let _who = who;
    for turn in 0..8u64 {
        let key = key_at(round.keys, 8 * round.number + turn);
        if round.puts {
            let _ = table.put(rt, &mut pass, key, round.number);
        } else {
            let _ = table.remove(rt, &mut pass, key);
        }
    }
    pass
}

// Whether the clone is balanced, has of the thread's few keys what is left after so many of its writes, and of each
// other thread's what that had between two writes.
fn has_few(view: &mut TableView<'_>, who: u32, writes: u64) -> bool {
    let Some(all) = few_in(view) else {
        return false;
    };
    let mut pairs = 0u64;
    for (other, values) in all.into_iter().enumerate() {
        let own = other == who as usize;
        if own && values != few_after(writes) || !few_are_between(values) {
            return false;
        }
        for value in values {
            pairs = pairs.saturating_add(u64::from(value.is_some()));
        }
    }
    is_balanced(view, pairs)
}

// The same at many keys.
fn has_many(view: &mut TableView<'_>, who: u32, writes: u64) -> bool {
    let Some(spans) = spans_in(view) else {
        return false;
    };
    let mut pairs = 0u64;
    for (other, span) in spans.into_iter().enumerate() {
        let keys = many_keys(other as u32);
        let own = other == who as usize;
        if own && span != Span::after(keys, writes) || !span.is_between(keys) {
            return false;
        }
        pairs = pairs.saturating_add(span.count);
    }
    is_balanced(view, pairs)
}

// Whether a clone that is made now is right.
fn clones_well<R: Wait>(
    table: &SnapTable,
    rt: &R,
    pass: &mut Pass,
    course: Course,
    who: u32,
    round: u64,
) -> bool
    requires ready { (most : _) × IsReadyTo table.now who most pass.old × (most < 20000) }
    ensures { (most : _) → IsReadyTo table.now who most pass.old
        → IsReadyTo table.now who (most + 1) pass.new }
{
    let writes = round.saturating_add(1).saturating_mul(8);
    let mut view = table.clone_view(rt, pass);
    match course {
        Course::Few => has_few(&mut view, who, writes),
        Course::Many => has_many(&mut view, who, writes),
    }
}

// What each thread does.
#[derive(Clone, Copy)]
enum Course {
    // It puts four keys and removes them, over and over, with a clone after each round.
    Few,
    // It puts each of 2,504 keys and then removes each, with a clone after each 104th round.
    Many,
}

// Follows the course for 626 rounds. Answers how many clones were right.
fn follow<R: Wait>(
    table: &SnapTable,
    rt: &R,
    mut pass: Pass,
    who: u32,
    course: Course,
) -> (Pass, u64)
    requires { IsReadyTo table.now who 0 pass }
    ensures { IsReadyTo table.now who 5634 result.0 }
{
    let mut right = 0u64;
    for number in 0..626u64 {
        let round = round_of(course, who, number);
        pass = write_eight(table, rt, pass, who, round);
        if round.clones {
            let is_right = clones_well(table, rt, &mut pass, course, who, number);
            right = right.saturating_add(u64::from(is_right));
        }
    }
    (pass, right)
}

// Two threads, of which the first is the one of this number.
fn follow_beside<R: Wait + Threads + Sync>(
    table: &SnapTable,
    rt: &R,
    first: Pass,
    second: Pass,
    who: u32,
    course: Course,
) -> (Pass, u64)
    requires few { who < 64 }
    requires first { IsReadyTo table.now who 0 first }
    requires second { IsReadyTo table.now (who + 1) 0 second }
    ensures { IsReadyTo table.now who 5634 result.0 }
{
    let ((first, of_first), (_, of_second)) = thread::join(
        rt,
        || follow(table, rt, first, who, course),
        || follow(table, rt, second, who + 1, course),
    );
    (first, of_first.saturating_add(of_second))
}

// How many clones of four threads are right, and the depth and the number of pairs of the clone at the end.
fn by_four<R: Wait + Threads + Sync>(
    rt: &R,
    alloc: Global,
    course: Course,
) -> Option<(u64, u32, u64)> {
    let Ok((table, mut passes)) = SnapTable::open(alloc, 1_000_000, 4) else {
        return None;
    };
    let d = passes.pop()?;
    let c = passes.pop()?;
    let b = passes.pop()?;
    let a = passes.pop()?;
    let ((mut a, of_ab), (_, of_cd)) = thread::join(
        rt,
        || -> (Pass, u64)
            requires { IsReadyTo table 0 0 a × IsReadyTo table 1 0 b }
            ensures { IsReadyTo table 0 5634 result.0 }
        { follow_beside(&table, rt, a, b, 0, course) },
        || -> (Pass, u64)
            requires { IsReadyTo table 2 0 c × IsReadyTo table 3 0 d }
            ensures { IsReadyTo table 2 5634 result.0 }
        { follow_beside(&table, rt, c, d, 2, course) },
    );
    let mut view = table.clone_view(rt, &mut a);
    let pairs = view.count(0, u64::MAX);
    Some((of_ab.saturating_add(of_cd), view.depth(), pairs))
}

// Five tables take 100,160 writes.
#[test]
fn few_keys_stay_balanced(rt: HostRuntime) {
    for _ in 0..5 {
        is(
            &rt,
            by_four(&rt, rt.alloc(), Course::Few),
            Some((2_504, 0, 0)),
        );
    }
}

#[test]
fn many_keys_stay_balanced(rt: HostRuntime) {
    is(
        &rt,
        by_four(&rt, rt.alloc(), Course::Many),
        Some((24, 0, 0)),
    );
}
