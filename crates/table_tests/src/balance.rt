//! Balance: how deep clones are once puts and removals were repaired.
ghost use Rattle.std.specs.Prelude.{◌+◌, ◌<◌, ◌≤◌};
ghost use Rattle.snap_table.specs.Ready.{IsReadyTo};

use crate::asserts::{holds, is};
use snap_table::{Pass, SnapTable, TableView};
use snap_view::Settled;
use std::alloc::{AllocError, Global};
use std::process::Abort;
use std::sync::Wait;
use std::test::Fail;
use std::thread;

// Checks each case, and answers how many there are. A case is a number of rows and the words to follow, `~`, and what
// is shown of the table then; `|` stands between cases.
fn hold<R: Abort + Wait>(rt: &R, alloc: Global, cases: &str) -> u32 {
    let mut count = 0u32;
    let mut rest = Some(cases);
    for _ in 0..100u32 {
        let Some(text) = rest else {
            return count;
        };
        let (case, more) = match text.split_once('|') {
            Some((case, more)) => (case, Some(more)),
            None => (text, None),
        };
        let (words, want) = case.split_once('~').unwrap_or((case, "no want"));
        let found = shown(rt, alloc, words).expect(rt, "no memory");
        assert_eq!(rt; found.as_str(), want, "at {words}");
        count = count.saturating_add(1);
        rest = more;
    }
    count
}

// The depth, the balance and the keys of a clone, and the rows that were drawn before it, once the words were followed
// on a table of so many rows.
fn shown<R: Wait>(rt: &R, alloc: Global, words: &str) -> Result<String, AllocError> {
    let (rows, words) = words.split_once(' ').unwrap_or((words, ""));
    let rows = number(rows).max(1) as u32;
    let Ok((table, mut passes)) = SnapTable::open(alloc, rows, 1) else {
        return Err(AllocError);
    };
    let Some(mut pass) = passes.pop() else {
        return String::from_str(alloc, "no pass");
    };
    let said = follow(&table, rt, &mut pass, words);
    let drawn = table.drawn_rows(&mut pass);
    let mut view = table.clone_view(rt, &mut pass);
    let (depth, balance) = (view.depth(), balance_of(&mut view));
    let mut text = format!(in alloc; "{said} depth {depth} {balance} drawn {drawn}:")?;
    add_keys(alloc, &mut view, &mut text)?;
    Ok(text)
}

fn balance_of(view: &mut TableView<'_>) -> &'static str {
    match view.settled() {
        Settled::Yes => "settled",
        Settled::RowsOut { .. } => "rows out",
        Settled::StampOut { .. } => "stamp out",
    }
}

fn add_keys(alloc: Global, view: &mut TableView<'_>, text: &mut String) -> Result<(), AllocError> {
    for (key, _) in view.pairs() {
        let word = format!(in alloc; " {key}")?;
        text.push_str(word.as_str())?;
    }
    Ok(())
}

// Does what the words say: a number puts that key with itself as its value, one behind a minus removes it, and `clone`
// makes a clone and lets it go. Answers whether each was answered Ok.
fn follow<R: Wait>(table: &SnapTable, rt: &R, pass: &mut Pass, words: &str) -> bool
    requires { IsReadyTo table.now 0 0 pass.old }
    ensures { IsReadyTo table.now 0 20 pass.new }
{
    let mut rest = words.split_whitespace();
    let mut said = true;
    for turn in 0..20u64 {
        let _turn = turn;
        let Some(word) = rest.next() else {
            return said;
        };
        said = follow_word(table, rt, pass, word) && said;
    }
    said
}

fn follow_word<R: Wait>(table: &SnapTable, rt: &R, pass: &mut Pass, word: &str) -> bool
    requires ready { (most : _) × IsReadyTo table.now 0 most pass.old × (most < 20) }
    ensures { (most : _) → IsReadyTo table.now 0 most pass.old
        → IsReadyTo table.now 0 (most + 1) pass.new }
{
    if word == "clone" {
        table.clone_view(rt, pass).release();
        return true;
    }
    match word.strip_prefix('-') {
        Some(rest) => table.remove(rt, pass, number(rest)).is_ok(),
        None => {
            let key = number(word);
            table.put(rt, pass, key, key).is_ok()
        }
    }
}

// A number up to 1,000.
fn number(word: &str) -> u64
    ensures { result ≤ 1000 }
{
    word.parse::<u64>().unwrap_or(0).min(1000)
}

#[test]
fn clones_are_balanced(rt: HostRuntime) {
    let cases = "7 1 2 3~true depth 2 settled drawn 3: 1 2 3|\
        7 3 2 1~true depth 2 settled drawn 3: 1 2 3|\
        7 3 1 2~true depth 2 settled drawn 3: 1 2 3|\
        7 1 3 2~true depth 2 settled drawn 3: 1 2 3|\
        7 1 2 3 4 5 6 7~true depth 3 settled drawn 7: 1 2 3 4 5 6 7|\
        7 2 1 3 4 -1~true depth 2 settled drawn 4: 2 3 4|\
        7 2 1 3 -2~true depth 2 settled drawn 3: 1 3|\
        7 2 1 3 -2 -1~true depth 1 settled drawn 3: 3|\
        7 2 1 -2~true depth 1 settled drawn 2: 1|\
        7 2 1 3 -2 -1 -3~true depth 0 settled drawn 3:|\
        7 2 1 3 4 clone -1~true depth 2 settled drawn 7: 2 3 4|\
        6 2 1 3 4 clone -1~true depth 3 rows out drawn 6: 2 3 4";
    is(&rt, hold(&rt, rt.alloc(), cases), 12);
}

// Puts of 1,000 keys, each of itself, from the first on and so far apart, and how many of them found none.
fn put_each<R: Wait>(
    table: &SnapTable,
    rt: &R,
    mut pass: Pass,
    who: u32,
    first: u64,
    apart: u64,
) -> (Pass, u64)
    requires ready { IsReadyTo table.now who 0 pass }
    requires few { (first ≤ 2) × (apart ≤ 2) }
    ensures { IsReadyTo table.now who 1000 result.0 }
{
    let mut fresh = 0u64;
    for turn in 0..1000u64 {
        let key = first + turn * apart;
        if table.put(rt, &mut pass, key, key) == Ok(None) {
            fresh = fresh.saturating_add(1);
        }
    }
    (pass, fresh)
}

// Whether the clone has the keys from the first on, one apart, each with itself as its value, and so many.
fn has_each(view: &mut TableView<'_>, first: u64, count: u64) -> bool {
    let mut next = first;
    for (key, value) in view.pairs() {
        if key != next || value != next {
            return false;
        }
        next = next.saturating_add(1);
    }
    next.wrapping_sub(first) == count
}

#[test]
fn rising_keys_stay_shallow(rt: HostRuntime) -> Result<(), Fail> {
    let (table, mut passes) = SnapTable::open(rt.alloc(), 4_096, 1)?;
    let p = passes.pop().expect(&rt, "no pass");
    let (mut p, fresh) = put_each(&table, &rt, p, 0, 1, 1);
    is(&rt, fresh, 1_000);
    is(&rt, table.drawn_rows(&mut p), 1_000);
    let mut view = table.clone_view(&rt, &mut p);
    holds(&rt, view.depth() <= 14);
    holds(&rt, has_each(&mut view, 1, 1_000));
    is(&rt, table.put(&rt, &mut p, 500, 9), Ok(Some(500)));
    let more = table.drawn_rows(&mut p).saturating_sub(1_000);
    holds(&rt, 1 <= more && more <= 24);
    Ok(())
}

#[test]
fn keys_of_two_threads_stay_shallow(rt: HostRuntime) -> Result<(), Fail> {
    let (table, mut passes) = SnapTable::open(rt.alloc(), 2_100, 2)?;
    let b = passes.pop().expect(&rt, "no second pass");
    let a = passes.pop().expect(&rt, "no first pass");
    let ((mut a, of_a), (_b, of_b)) = thread::join(
        &rt,
        || put_each(&table, &rt, a, 0, 0, 2),
        || put_each(&table, &rt, b, 1, 1, 2),
    );
    is(&rt, of_a.wrapping_add(of_b), 2_000);
    let mut view = table.clone_view(&rt, &mut a);
    holds(&rt, view.depth() <= 15);
    holds(&rt, has_each(&mut view, 0, 2_000));
    Ok(())
}
